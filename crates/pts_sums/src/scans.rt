//! The four scans.

ghost use Rattle.std.specs.Prelude.{◌≡◌, ◌≢◌, ◌+◌, ◌-◌, ◌<◌, ◌^◌, min, IfOk, IfSome, IsSome, length, map, take};
ghost use Rattle.pts_eval.specs.Cells.{range_in, start_store};
ghost use Rattle.pts_eval.specs.Sums.{combining, item_of, positions_in, scan_at, scanned};
ghost use Rattle.pts_store.specs.Laws.{SameShape};
ghost use Rattle.pts_store.specs.Stores.{Store};
ghost use Rattle.pts_sums.specs.Answers.{writes_in, IsScanAnswer};
ghost use Rattle.pts_sums.specs.Places.{AreWritten};

use crate::answers::ScanAnswer;
use crate::operations::{Operations, element_item};
use crate::places::Scanner;
use crate::run::Run;
use crate::sequences::Sequence;
use crate::terms::{Combining, Terms};
use pts_boards::{Gate, Pool};
use pts_conflict::Cleared;
use pts_elements::{count_cells, read_element};
use pts_lowering::{CellRange, LoweredCall, Scan};
use pts_program::Program;
use pts_store::{View, Writes};
use pts_types::{NoMemory, Policy, Value};
use std::alloc::Global;
use std::thread::Threads;

// The items of a scan that reads all its elements before it writes; there are `count`.
#[derive(Drop)]
struct ScanTerms<'a, 'b, V> {
    program: &'a Program,
    view: &'a V,
    call: &'b Scan,
    count: u32,
}

impl<V: View> Combining for ScanTerms<'_, '_, V> {
    ghost op = { λ t. combining t.program.now.functions t.call.now.operation };

    fn combine(&self, x: Value, y: Value) -> Option<Value> {
        let operations = Operations {
            program: self.program,
            operation: self.call.operation,
            transform: None,
        };
        operations.combine(x, y)
    }
}

impl<V: View> Terms for ScanTerms<'_, '_, V> {
    ghost condition = { λ t. t.count ≡ positions_in (V.stands t.view.now) t.call.now };

    ghost items = { λ t. map (item_of t.program.now.functions t.call.now.transform) (take (positions_in (V.stands t.view.now) t.call.now) (range_in (V.stands t.view.now) t.call.now.source)) };

    #[tactic(auto, using(crate::proofs::ScanItems::positions))]
    fn count(&self) -> u32 {
        self.count
    }

    #[tactic(auto, using(crate::proofs::ScanItems::within_source, crate::proofs::ScanItems::scan_item))]
    fn item(&self, at: u32) -> Option<Value> {
        let element = read_element(self.view, self.call.source, at);
        element_item(self.program, self.call.transform, element)
    }
}

// How many positions a scan from one range to another has.
fn count_positions(program: &Program, source: CellRange, target: CellRange) -> u32
    ensures count { (store : Store) → SameShape (start_store program.now) store → result ≡ min (length (range_in store source)) (target.high - target.low) }
    ensures source { source.low + result < 2 ^ 32 }
    ensures target { target.low + result < 2 ^ 32 }
{
    count_cells(program, source).min(target.high.saturating_sub(target.low))
}

fn answer_with(written: Option<Writes>) -> ScanAnswer
    ensures { writes_in result ≡ written }
{
    match written {
        Some(writes) => ScanAnswer::Written(writes),
        None => ScanAnswer::Terminated,
    }
}

// The scan of this number, if the call is one.
fn find_scan(program: &Program, call: u32) -> Option<Scan>
    ensures { result ≡ scan_at program.now call }
{
    match program.lowered_calls().get(call as usize) {
        Some(LoweredCall::Scan(scan)) => Some(*scan),
        _ => None,
    }
}

impl<V: View, G: Gate> Run<'_, V, G> {
    // Runs a scan that reads all its elements before it writes.
    fn scan_by_chunks(&self, alloc: Global, call: &Scan) -> Result<Option<Writes>, NoMemory>
        requires arrays { SameShape (start_store self.now.program.now) (V.stands self.now.view.now) }
        requires policy { call.now.policy ≢ Policy.Seq }
        ensures { IfOk result (λ written. AreWritten (scanned self.now.program.now.functions (V.stands self.now.view.now) self.now.pool.chunk call.now) call.now.target.array call.now.target.low written) }
    {
        let terms = ScanTerms {
            program: self.program,
            view: self.view,
            call,
            count: count_positions(self.program, call.source, call.target),
        };
        let gathered = self.gather(alloc, &terms)?;
        let scanner = Scanner {
            terms: &gathered,
            order: call.order,
            array: call.target.array,
            first: call.target.low,
        };
        let mut writes = Writes::new(alloc);
        let size = self.pool.chunk;
        if scanner.write_chunks(size, call.initial, &mut writes)? {
            Ok(Some(writes))
        } else {
            Ok(None)
        }
    }

    // Runs a scan that reads each element when the places before it are written.
    fn scan_in_turn(&self, alloc: Global, call: &Scan) -> Result<Option<Writes>, NoMemory>
        requires arrays { SameShape (start_store self.now.program.now) (V.stands self.now.view.now) }
        requires policy { call.now.policy ≡ Policy.Seq }
        ensures { IfOk result (λ written. AreWritten (scanned self.now.program.now.functions (V.stands self.now.view.now) self.now.pool.chunk call.now) call.now.target.array call.now.target.low written) }
    {
        let operations = Operations {
            program: self.program,
            operation: call.operation,
            transform: call.transform,
        };
        let sequence = Sequence {
            operations: &operations,
            order: call.order,
            source: call.source,
            target: call.target,
            count: count_positions(self.program, call.source, call.target),
        };
        let written = sequence.write_in_turn(alloc, self, call.initial)?;
        Ok(written)
    }

    // Runs a scan.
    fn scan(&self, alloc: Global, call: &Scan) -> Result<ScanAnswer, NoMemory>
        requires { SameShape (start_store self.now.program.now) (V.stands self.now.view.now) }
        ensures { IfOk result (λ answer. IsScanAnswer self.now.program.now.functions (V.stands self.now.view.now) self.now.pool call.now answer) }
    {
        match call.policy {
            Policy::Seq => Ok(answer_with(self.scan_in_turn(alloc, call)?)),
            _ => Ok(answer_with(self.scan_by_chunks(alloc, call)?)),
        }
    }
}

/// Runs one of the four scans ([inclusive.scan], [exclusive.scan], [transform.inclusive.scan], [transform.exclusive.scan]): the sums of
/// the items up to each position or before it, which it writes to the cells of its target. Under `seq` it reads each element when the
/// places before it are written, else all of them before. The view is only read.
pub fn scan<R: Threads + Sync, V: View + Sync, G: Gate>(
    _rt: &R,
    alloc: Global,
    gate: &G,
    pool: Pool,
    cleared: &Cleared,
    call: u32,
    view: &V,
) -> Result<ScanAnswer, NoMemory>
    requires form { IsSome (scan_at cleared.now call) }
    requires arrays { SameShape (start_store cleared.now) (V.stands view.now) }
    ensures { IfOk result (λ answer. IfSome (scan_at cleared.now call) (λ scan. IsScanAnswer cleared.now.functions (V.stands view.now) pool scan answer)) }
{
    let program = cleared.program();
    let Some(scan) = find_scan(program, call) else {
        unreachable!()
    };
    let run = Run {
        program,
        call,
        view,
        pool,
        gate,
    };
    run.scan(alloc, &scan)
}
