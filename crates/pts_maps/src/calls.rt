//! The four map calls of a program.

ghost use Rattle.std.specs.Prelude.{◌≡◌, IfOk, IfSome, IsSome, length};
ghost use Rattle.pts_eval.specs.Maps.{count_if_at, find_if_at, for_each_at, number_in, transform_at, truths_in, EndsAlongAll, EndsWith, PermitsAnswer, WritesNumber};
ghost use Rattle.pts_outcomes.specs.MapCalls.{as_transform};
ghost use Rattle.pts_eval.specs.Cells.{start_store};
ghost use Rattle.pts_store.specs.Laws.{SameShape};
ghost use Rattle.pts_maps.specs.Answers.{end_of};
ghost use Rattle.pts_maps.specs.Transforms.{in_turn};

use crate::answers::{Answer, MapAnswer};
use crate::run::Run;
use pts_boards::{Gate, Pool};
use pts_conflict::Cleared;
use pts_elements::{count_cells, write_into};
use pts_lowering::{ForEach, LoweredCall, Search, Transform};
use pts_program::Program;
use pts_store::{View, Writes};
use pts_types::{NoMemory, Value};
use std::alloc::Global;
use std::thread::Threads;

// The call of this number, if it is a `for_each`.
fn find_for_each(program: &Program, call: u32) -> Option<ForEach>
    ensures { result ≡ for_each_at program.now call }
{
    match program.lowered_calls().get(call as usize) {
        Some(LoweredCall::ForEach(call)) => Some(*call),
        _ => None,
    }
}

fn find_transform(program: &Program, call: u32) -> Option<Transform>
    ensures { result ≡ transform_at program.now call }
{
    match program.lowered_calls().get(call as usize) {
        Some(LoweredCall::Transform(call)) => Some(*call),
        _ => None,
    }
}

fn find_find_if(program: &Program, call: u32) -> Option<Search>
    ensures { result ≡ find_if_at program.now call }
{
    match program.lowered_calls().get(call as usize) {
        Some(LoweredCall::FindIf(call)) => Some(*call),
        _ => None,
    }
}

fn find_count_if(program: &Program, call: u32) -> Option<Search>
    ensures { result ≡ count_if_at program.now call }
{
    match program.lowered_calls().get(call as usize) {
        Some(LoweredCall::CountIf(call)) => Some(*call),
        _ => None,
    }
}

// The number that an answer puts into its cell, where a search has so many positions.
fn number_of(size: u32, answer: Answer) -> Option<Value>
    ensures { result ≡ number_in size (end_of answer) }
{
    match answer {
        Answer::Index(Some(place)) => Some(Value::U64(place)),
        Answer::Index(None) => Some(Value::U64(u64::from(size))),
        Answer::Count(count) => Some(Value::U64(count)),
        Answer::Done | Answer::Terminated => None,
    }
}

impl<V: View, G: Gate> Run<'_, V, G> {
    // Runs a transform.
    fn transform(&self, alloc: Global, call: &Transform) -> Result<MapAnswer, NoMemory>
        requires { SameShape (start_store self.now.program.now) (V.stands self.now.view.now) }
        ensures { IfOk result (λ answer. EndsWith (in_turn self.now.program.now.functions (V.stands self.now.view.now) call.now) (end_of answer.answer) answer.writes) }
    {
        match self.write_transform(alloc, call)? {
            Some(writes) => Ok(MapAnswer {
                writes,
                answer: Answer::Done,
            }),
            None => Ok(MapAnswer {
                writes: Writes::new(alloc),
                answer: Answer::Terminated,
            }),
        }
    }

    // A search with its answer, which is put into its cell.
    fn answered(&self, alloc: Global, call: &Search, answer: Answer) -> Result<MapAnswer, NoMemory>
        requires { SameShape (start_store self.now.program.now) (V.stands self.now.view.now) }
        ensures same { IfOk result (λ done. done.answer ≡ answer) }
        ensures writes { IfOk result (λ done. WritesNumber (truths_in self.now.program.now.functions (V.stands self.now.view.now) call.now) call.now (end_of answer) done.writes) }
    {
        let size = count_cells(self.program, call.range);
        let writes = write_into(alloc, call.into, number_of(size, answer))?;
        Ok(MapAnswer { writes, answer })
    }
}

/// Runs a `for_each` ([alg.foreach]): each cell of its range becomes what its function gives for it. Each order
/// that the policy of the call allows ends so and writes the same. The view is only read.
pub fn for_each<R: Threads + Sync, V: View + Sync, G: Gate>(
    _rt: &R,
    alloc: Global,
    gate: &G,
    pool: Pool,
    cleared: &Cleared,
    call: u32,
    view: &V,
) -> Result<MapAnswer, NoMemory>
    requires form { IsSome (for_each_at cleared.now call) }
    requires arrays { SameShape (start_store cleared.now) (V.stands view.now) }
    ensures permitted { IfOk result (λ answer. IfSome (for_each_at cleared.now call) (λ x. PermitsAnswer pool.workers cleared.now.functions (V.stands view.now) (LoweredCall.ForEach x) (end_of answer.answer) answer.writes)) }
    ensures orders { IfOk result (λ answer. IfSome (for_each_at cleared.now call) (λ x. EndsAlongAll cleared.now.functions (V.stands view.now) (as_transform x) (end_of answer.answer) answer.writes)) }
{
    let program = cleared.program();
    program.keeps_its_promises();
    let Some(own) = find_for_each(program, call) else {
        unreachable!()
    };
    let run = Run {
        program,
        call,
        view,
        pool,
        gate,
    };
    let transform = Transform {
        policy: own.policy,
        first: own.range,
        second: None,
        target: own.range,
        function: own.function,
    };
    run.transform(alloc, &transform)
}

/// Runs a `transform` ([alg.transform]): the cells of its target become what its function gives for the elements of a range, or of two
/// ranges, at each position. Each order that the policy of the call allows ends so and writes the same.
/// The view is only read.
pub fn transform<R: Threads + Sync, V: View + Sync, G: Gate>(
    _rt: &R,
    alloc: Global,
    gate: &G,
    pool: Pool,
    cleared: &Cleared,
    call: u32,
    view: &V,
) -> Result<MapAnswer, NoMemory>
    requires form { IsSome (transform_at cleared.now call) }
    requires arrays { SameShape (start_store cleared.now) (V.stands view.now) }
    ensures permitted { IfOk result (λ answer. IfSome (transform_at cleared.now call) (λ x. PermitsAnswer pool.workers cleared.now.functions (V.stands view.now) (LoweredCall.Transform x) (end_of answer.answer) answer.writes)) }
    ensures orders { IfOk result (λ answer. IfSome (transform_at cleared.now call) (λ x. EndsAlongAll cleared.now.functions (V.stands view.now) x (end_of answer.answer) answer.writes)) }
{
    let program = cleared.program();
    program.keeps_its_promises();
    let Some(own) = find_transform(program, call) else {
        unreachable!()
    };
    let run = Run {
        program,
        call,
        view,
        pool,
        gate,
    };
    run.transform(alloc, &own)
}

/// Runs a `find_if` ([alg.find]): the first position of its range at which its predicate holds. It is put into a cell where the call names
/// one. The view is only read.
pub fn find_if<R: Threads + Sync, V: View + Sync, G: Gate>(
    _rt: &R,
    alloc: Global,
    gate: &G,
    pool: Pool,
    cleared: &Cleared,
    call: u32,
    view: &V,
) -> Result<MapAnswer, NoMemory>
    requires form { IsSome (find_if_at cleared.now call) }
    requires arrays { SameShape (start_store cleared.now) (V.stands view.now) }
    ensures { IfOk result (λ answer. IfSome (find_if_at cleared.now call) (λ x. PermitsAnswer pool.workers cleared.now.functions (V.stands view.now) (LoweredCall.FindIf x) (end_of answer.answer) answer.writes)) }
{
    let program = cleared.program();
    let Some(own) = find_find_if(program, call) else {
        unreachable!()
    };
    let run = Run {
        program,
        call,
        view,
        pool,
        gate,
    };
    run.answered(alloc, &own, run.find(&own))
}

/// Runs a `count_if` ([alg.count]): at how many positions of its range its predicate holds. The number is put into a cell where the call
/// names one. The view is only read.
pub fn count_if<R: Threads + Sync, V: View + Sync, G: Gate>(
    _rt: &R,
    alloc: Global,
    gate: &G,
    pool: Pool,
    cleared: &Cleared,
    call: u32,
    view: &V,
) -> Result<MapAnswer, NoMemory>
    requires form { IsSome (count_if_at cleared.now call) }
    requires arrays { SameShape (start_store cleared.now) (V.stands view.now) }
    ensures { IfOk result (λ answer. IfSome (count_if_at cleared.now call) (λ x. PermitsAnswer pool.workers cleared.now.functions (V.stands view.now) (LoweredCall.CountIf x) (end_of answer.answer) answer.writes)) }
{
    let program = cleared.program();
    let Some(own) = find_count_if(program, call) else {
        unreachable!()
    };
    let run = Run {
        program,
        call,
        view,
        pool,
        gate,
    };
    run.answered(alloc, &own, run.count(&own))
}
