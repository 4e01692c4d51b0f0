//! The texts of lines.

ghost use Rattle.std.specs.Prelude.{◌≡◌, ◌++◌, OnOk, decimal};
ghost use Rattle.pts_eval.specs.Runs.{Called, Printed, Terminated};
ghost use Rattle.pts_run.specs.declared.refusal.Refusal.TheVariants as refusals;
ghost use Rattle.pts_run.specs.Text as spec;
ghost use Rattle.pts_run.specs.Text.{at_position, cell_text, evaluation, line_feed, place_text, line_of, spaced, value_text, refusal_line};

use crate::refusal::{Conflict, Refusal};
use itoa::{Buffer, Integer};
use pts_eval::CallResult;
use pts_lowering::{CellRange, LoweredCall, ScanOrder};
use pts_program::BuildFault;
use pts_syntax::SyntaxFault;
use pts_types::Value;
use std::alloc::AllocError;

/// Puts the line of a call behind what the text holds.
#[tactic(auto, using(std::proofs::lemmas::List::append_assoc))]
pub fn push_called(
    text: &mut Vec<u8>,
    number: usize,
    call: &LoweredCall,
    given: CallResult,
) -> Result<(), AllocError>
    ensures { OnOk result (text.new.items ≡ text.old.items ++ line_of number (Called call.now given)) }
{
    push_number(text, number)?;
    text.extend_from_slice(b": ")?;
    text.extend_from_slice(call_word(call).as_bytes())?;
    push_result(text, given)?;
    text.extend_from_slice(b"\n")
}

/// Puts the line of a statement that has terminated the run behind what the text holds.
#[tactic(auto, using(std::proofs::lemmas::List::append_assoc))]
pub fn push_terminated(text: &mut Vec<u8>, number: usize) -> Result<(), AllocError>
    ensures { OnOk result (text.new.items ≡ text.old.items ++ line_of number Terminated) }
{
    push_number(text, number)?;
    text.extend_from_slice(b": terminated\n")
}

/// Puts the line of a printed array behind what the text holds.
#[tactic(auto, using(std::proofs::lemmas::List::append_assoc))]
pub fn push_printed(
    text: &mut Vec<u8>,
    number: usize,
    name: &str,
    cells: &[Value],
) -> Result<(), AllocError>
    ensures { OnOk result (text.new.items ≡ text.old.items ++ line_of number (Printed name.now cells.now)) }
{
    push_number(text, number)?;
    text.extend_from_slice(b": print ")?;
    text.extend_from_slice(name.as_bytes())?;
    push_spaced(text, cells)?;
    text.extend_from_slice(b"\n")
}

/// Puts the line of a refusal behind what the text holds.
pub fn push_refusal(text: &mut Vec<u8>, refusal: Refusal) -> Result<(), AllocError>
    ensures { OnOk result (text.new.items ≡ text.old.items ++ refusal_line refusal) }
{
    match refusal {
        Refusal::TooLong => text.extend_from_slice(b"refused too_long\n"),
        Refusal::Syntax(fault) => push_syntax_fault(text, fault),
        Refusal::Build(fault) => push_build_fault(text, fault),
        Refusal::Later(item) => push_counted(text, b"refused later item ", item),
        Refusal::Conflict(conflict) => push_conflict(text, &conflict),
    }
}

#[tactic(auto, using(std::proofs::lemmas::List::append_assoc))]
fn push_syntax_fault(text: &mut Vec<u8>, fault: SyntaxFault) -> Result<(), AllocError>
    ensures { OnOk result (text.new.items ≡ text.old.items ++ refusal_line (refusals.Syntax fault)) }
{
    text.extend_from_slice(b"refused ")?;
    text.extend_from_slice(fault.kind.name().as_bytes())?;
    text.extend_from_slice(b" at ")?;
    push_number(text, fault.at)?;
    text.extend_from_slice(b"\n")
}

#[tactic(auto, using(std::proofs::lemmas::List::append_assoc))]
fn push_build_fault(text: &mut Vec<u8>, fault: BuildFault) -> Result<(), AllocError>
    ensures { OnOk result (text.new.items ≡ text.old.items ++ refusal_line (refusals.Build fault)) }
{
    text.extend_from_slice(b"refused ")?;
    text.extend_from_slice(fault.rule().as_bytes())?;
    text.extend_from_slice(b" item ")?;
    push_number(text, fault.item())?;
    push_position(text, fault.position())?;
    text.extend_from_slice(b"\n")
}

#[tactic(auto, using(std::proofs::lemmas::List::append_assoc))]
fn push_conflict(text: &mut Vec<u8>, conflict: &Conflict) -> Result<(), AllocError>
    ensures { OnOk result (text.new.items ≡ text.old.items ++ refusal_line (refusals.Conflict conflict.now)) }
{
    text.extend_from_slice(b"refused conflict item ")?;
    push_number(text, conflict.pair.item)?;
    push_place(text, conflict)?;
    Ok(())
}

// The cell and the two evaluations.
#[tactic(auto, using(std::proofs::lemmas::List::append_assoc), unfolding(crate::specs::Text::place_text))]
fn push_place(text: &mut Vec<u8>, conflict: &Conflict) -> Result<(), AllocError>
    ensures { OnOk result (text.new.items ≡ text.old.items ++ place_text conflict.now) }
{
    let pair = conflict.pair;
    push_cell(text, conflict.array.as_str(), pair.cell)?;
    push_evaluation(text, pair.p, pair.k)?;
    push_evaluation(text, pair.q, pair.m)?;
    text.extend_from_slice(b"\n")
}

#[tactic(auto, using(std::proofs::lemmas::List::append_assoc), unfolding(crate::specs::Text::cell_text))]
fn push_cell(text: &mut Vec<u8>, array: &str, cell: u32) -> Result<(), AllocError>
    ensures { OnOk result (text.new.items ≡ text.old.items ++ cell_text array.now cell) }
{
    text.extend_from_slice(b" cell ")?;
    text.extend_from_slice(array.as_bytes())?;
    text.extend_from_slice(b"[")?;
    push_number(text, cell)?;
    text.extend_from_slice(b"]")
}

#[tactic(auto, using(std::proofs::lemmas::List::append_assoc), unfolding(crate::specs::Text::evaluation))]
fn push_evaluation(text: &mut Vec<u8>, position: u32, point: u32) -> Result<(), AllocError>
    ensures { OnOk result (text.new.items ≡ text.old.items ++ evaluation position point) }
{
    text.extend_from_slice(b" position ")?;
    push_number(text, position)?;
    text.extend_from_slice(b" point ")?;
    push_number(text, point)
}

// A line of these words and a number.
#[tactic(auto, using(std::proofs::lemmas::List::append_assoc))]
fn push_counted(text: &mut Vec<u8>, words: &[u8], number: u32) -> Result<(), AllocError>
    ensures { OnOk result (text.new.items ≡ text.old.items ++ (words.now ++ (decimal number ++ line_feed))) }
{
    text.extend_from_slice(words)?;
    push_number(text, number)?;
    text.extend_from_slice(b"\n")
}

// The position of a fault, where it has one.
#[tactic(auto, using(std::proofs::lemmas::List::append_assoc))]
fn push_position(text: &mut Vec<u8>, position: Option<u64>) -> Result<(), AllocError>
    ensures { OnOk result (text.new.items ≡ text.old.items ++ at_position position) }
{
    match position {
        Some(position) => {
            text.extend_from_slice(b" position ")?;
            push_number(text, position)
        }
        None => Ok(()),
    }
}

// The first word of a call.
fn call_word(call: &LoweredCall) -> &'static str
    ensures { result.now ≡ spec.call_word call.now }
{
    match call {
        LoweredCall::ForEach(_) => "for_each",
        LoweredCall::Transform(_) => "transform",
        LoweredCall::FindIf(_) => "find_if",
        LoweredCall::CountIf(_) => "count_if",
        LoweredCall::Reduce(x) => reduction_word(x.second, x.transform),
        LoweredCall::Scan(x) => scan_word(x.order, x.transform),
        LoweredCall::Loop(_) => "for_loop",
    }
}

fn reduction_word(second: Option<CellRange>, transform: Option<u32>) -> &'static str
    ensures { result.now ≡ spec.reduction_word second transform }
{
    match (second, transform) {
        (None, None) => "reduce",
        _ => "transform_reduce",
    }
}

fn scan_word(order: ScanOrder, transform: Option<u32>) -> &'static str
    ensures { result.now ≡ spec.scan_word order transform }
{
    match (order, transform) {
        (ScanOrder::Inclusive, None) => "inclusive_scan",
        (ScanOrder::Inclusive, Some(_)) => "transform_inclusive_scan",
        (ScanOrder::Exclusive, None) => "exclusive_scan",
        (ScanOrder::Exclusive, Some(_)) => "transform_exclusive_scan",
    }
}

// What a call gives, behind a space.
#[tactic(auto, using(std::proofs::lemmas::List::append_assoc))]
fn push_result(text: &mut Vec<u8>, given: CallResult) -> Result<(), AllocError>
    ensures { OnOk result (text.new.items ≡ text.old.items ++ spec.result_text given) }
{
    match given {
        CallResult::Done => Ok(()),
        CallResult::Value(value) => {
            text.extend_from_slice(b" ")?;
            push_value(text, value)
        }
        CallResult::Position(Some(place)) => {
            text.extend_from_slice(b" ")?;
            push_number(text, place)
        }
        CallResult::Position(None) => text.extend_from_slice(b" end"),
    }
}

// Each value behind a space.
fn push_spaced(text: &mut Vec<u8>, cells: &[Value]) -> Result<(), AllocError>
    ensures { OnOk result (text.new.items ≡ text.old.items ++ spaced cells.now) }
{
    for cell in cells {
        text.extend_from_slice(b" ")?;
        push_value(text, *cell)?;
    }
    Ok(())
}

fn push_value(text: &mut Vec<u8>, value: Value) -> Result<(), AllocError>
    ensures { OnOk result (text.new.items ≡ text.old.items ++ value_text value) }
{
    match value {
        Value::I64(number) => push_number(text, number),
        Value::U64(number) => push_number(text, number),
        Value::Bool(true) => text.extend_from_slice(b"true"),
        Value::Bool(false) => text.extend_from_slice(b"false"),
    }
}

fn push_number<I: Integer>(text: &mut Vec<u8>, number: I) -> Result<(), AllocError>
    ensures { OnOk result (text.new.items ≡ text.old.items ++ I.text number) }
{
    let mut buffer = Buffer::new();
    text.extend_from_slice(buffer.format(number).as_bytes())
}
