//! Sums of ranges: `reduce` and `transform_reduce`.

ghost use Rattle.std.specs.Prelude.{◌≡◌, IfOk, IfSome, IsSomeAnd, length};
ghost use Rattle.pts_eval.specs.Cells.{start_store};
ghost use Rattle.pts_eval.specs.Sums.{combining, items_in, reduction_at, steps_into, IsReduce, IsTransformReduce};
ghost use Rattle.pts_store.specs.Laws.{SameShape};
ghost use Rattle.pts_store.specs.Steps.{AreOf};
ghost use Rattle.pts_store.specs.Stores.{Store};
ghost use Rattle.pts_sums.specs.Answers.{value_in, IsSumAnswer};

use crate::answers::{Outcome, SumAnswer};
use crate::groups::Chunked;
use crate::operations::{Operations, element_item, pair_item};
use crate::run::Run;
use crate::terms::{Combining, Terms};
use pts_boards::{Gate, Pool};
use pts_conflict::Cleared;
use pts_elements::{count_cells, read_element, single_grouping, write_into};
use pts_lowering::{LoweredCall, Reduction};
use pts_program::Program;
use pts_store::View;
use pts_types::{NoMemory, Value};
use std::alloc::Global;
use std::thread::Threads;

// The items of a reduction, of which there are `count`.
#[derive(Drop)]
struct ReductionTerms<'a, V> {
    program: &'a Program,
    view: &'a V,
    call: &'a Reduction,
    count: u32,
}

impl<V: View> Combining for ReductionTerms<'_, V> {
    ghost op = { λ t. combining t.program.now.functions t.call.now.operation };

    fn combine(&self, x: Value, y: Value) -> Option<Value> {
        let operations = Operations {
            program: self.program,
            operation: self.call.operation,
            transform: None,
        };
        operations.combine(x, y)
    }
}

impl<V: View> Terms for ReductionTerms<'_, V> {
    ghost condition = { λ t. t.count ≡ length (items_in t.program.now.functions (V.stands t.view.now) t.call.now) };

    ghost items = { λ t. items_in t.program.now.functions (V.stands t.view.now) t.call.now };

    fn count(&self) -> u32 {
        self.count
    }

    #[tactic(auto, using(crate::proofs::Items::within_one, crate::proofs::Items::within_first, crate::proofs::Items::within_second, crate::proofs::Items::one_item, crate::proofs::Items::two_item))]
    fn item(&self, at: u32) -> Option<Value> {
        match self.call.second {
            None => {
                let element = read_element(self.view, self.call.first, at);
                element_item(self.program, self.call.transform, element)
            }
            Some(second) => {
                let x = read_element(self.view, self.call.first, at);
                let y = read_element(self.view, second, at);
                pair_item(self.program, self.call.transform, x, y)
            }
        }
    }
}

// How many positions a reduction has.
#[tactic(auto, using(crate::proofs::Items::count_one, crate::proofs::Items::count_two))]
fn count_items(program: &Program, call: &Reduction) -> u32
    ensures { (store : Store) → SameShape (start_store program.now) store → result ≡ length (items_in program.now.functions store call.now) }
{
    let first = count_cells(program, call.first);
    match call.second {
        None => first,
        Some(second) => first.min(count_cells(program, second)),
    }
}

fn outcome_for(sum: Option<Value>) -> Outcome
    ensures { value_in result ≡ sum }
{
    match sum {
        Some(value) => Outcome::Value(value),
        None => Outcome::Terminated,
    }
}

// The reduction of this number, if the call is one.
fn find_reduction(program: &Program, call: u32) -> Option<Reduction>
    ensures { result ≡ reduction_at program.now call }
{
    match program.lowered_calls().get(call as usize) {
        Some(LoweredCall::Reduce(reduction)) => Some(*reduction),
        _ => None,
    }
}

impl<V: View, G: Gate> Run<'_, V, G> {
    // Runs a reduction.
    fn reduce(&self, alloc: Global, call: &Reduction) -> Result<SumAnswer, NoMemory>
        requires { SameShape (start_store self.now.program.now) (V.stands self.now.view.now) }
        ensures { IfOk result (λ answer. IsSumAnswer self.now.program.now.functions (V.stands self.now.view.now) self.now.pool call.now answer) }
    {
        let terms = ReductionTerms {
            program: self.program,
            view: self.view,
            call,
            count: count_items(self.program, call),
        };
        let grouping = single_grouping(alloc, terms.count.div_ceil(self.pool.chunk))?;
        let chunked = Chunked {
            terms: &terms,
            gate: self.gate,
            call: self.call,
            pool: self.pool,
        };
        let sum = chunked.sum(call.policy, call.initial, grouping.groups.as_slice());
        let writes = write_into(alloc, call.into, sum)?;
        Ok(SumAnswer {
            writes,
            outcome: outcome_for(sum),
            grouping,
        })
    }
}

/// Runs a `reduce` ([reduce]): the sum of a first value and the elements of a range, over a grouping of its chunks. It is put into a
/// cell where the call names one. The view is only read.
pub fn reduce<R: Threads + Sync, V: View + Sync, G: Gate>(
    _rt: &R,
    alloc: Global,
    gate: &G,
    pool: Pool,
    cleared: &Cleared,
    call: u32,
    view: &V,
) -> Result<SumAnswer, NoMemory>
    requires form { IsSomeAnd (reduction_at cleared.now call) IsReduce }
    requires arrays { SameShape (start_store cleared.now) (V.stands view.now) }
    ensures { IfOk result (λ answer. IfSome (reduction_at cleared.now call) (λ reduction. IsSumAnswer cleared.now.functions (V.stands view.now) pool reduction answer)) }
{
    let program = cleared.program();
    let Some(reduction) = find_reduction(program, call) else {
        unreachable!()
    };
    let run = Run {
        program,
        call,
        view,
        pool,
        gate,
    };
    run.reduce(alloc, &reduction)
}

/// Runs a `transform_reduce` ([transform.reduce]): the sum of a first value and what the transform gives for the elements of a range or
/// for those of two ranges at each position, over a grouping of its chunks. Without a transform the elements of two ranges are multiplied. The sum
/// is put into a cell where the call names one. The view is only read.
pub fn transform_reduce<R: Threads + Sync, V: View + Sync, G: Gate>(
    _rt: &R,
    alloc: Global,
    gate: &G,
    pool: Pool,
    cleared: &Cleared,
    call: u32,
    view: &V,
) -> Result<SumAnswer, NoMemory>
    requires form { IsSomeAnd (reduction_at cleared.now call) IsTransformReduce }
    requires arrays { SameShape (start_store cleared.now) (V.stands view.now) }
    ensures { IfOk result (λ answer. IfSome (reduction_at cleared.now call) (λ reduction. IsSumAnswer cleared.now.functions (V.stands view.now) pool reduction answer)) }
{
    let program = cleared.program();
    let Some(reduction) = find_reduction(program, call) else {
        unreachable!()
    };
    let run = Run {
        program,
        call,
        view,
        pool,
        gate,
    };
    run.reduce(alloc, &reduction)
}
