//! What code gives.

ghost use Rattle.std.specs.Prelude.{◌≡◌, ◌<◌, ◌≤◌, length, map, [], Ok, Err, MatchOption, MatchResult, unwrap_or};
ghost use Rattle.arrayvec.specs.ArrayVec.{array_vec_len};
ghost use Rattle.pts_types.specs.Arithmetic as arithmetic;
ghost use Rattle.pts_code.specs.Codes as spec;
ghost use Rattle.pts_code.specs.Outcomes as outcomes;
ghost use Rattle.pts_code.specs.Values as valued;

use crate::code::{Code, Step};
use crate::values::{inverted, is_true, negated, operated};
use arrayvec::ArrayVec;
use pts_types::{Kind, Thrown, Value, convert};

/// The functions that code may call, the values of its frame, and what was noted before it.
#[derive(Clone, Copy)]
pub struct Frame<'a> {
    pub codes: &'a [Code],
    pub values: &'a [Value],
    pub notes: &'a [Option<Result<Value, Thrown>>],
}

fn local(values: &[Value], place: usize) -> Result<Value, Thrown>
    ensures { result ≡ spec.local values.now place }
{
    match values.get(place) {
        Some(value) => Ok(*value),
        None => Ok(Value::U64(0)),
    }
}

#[inline(never)]
fn noted(notes: &[Option<Result<Value, Thrown>>], place: usize) -> Result<Value, Thrown>
    ensures { result ≡ valued.note notes.now place }
{
    match notes.get(place) {
        Some(note) => taken(*note),
        None => Ok(Value::U64(0)),
    }
}

fn taken(note: Option<Result<Value, Thrown>>) -> Result<Value, Thrown>
    ensures { result ≡ unwrap_or note outcomes.never }
{
    match note {
        Some(outcome) => outcome,
        None => Ok(Value::U64(0)),
    }
}

// The value of code without parts; None of any other.
#[inline(always)]
#[tactic(auto, using(crate::proofs::Given::gives_by_form))]
fn leaf(frame: &Frame<'_>, code: &Code) -> Option<Value>
    ensures { MatchOption result (Unit {0}) (λ value. spec.given frame.now code.now ≡ Ok value) }
{
    match code {
        Code::Value(value) => Some(*value),
        Code::Local(place) => local(frame.values, *place).ok(),
        _ => None,
    }
}

// Each form of code that goes into parts has a function with a small frame of its own, since calls and brackets nest
// some nine thousand deep. Chains, which are most of the code, stand in `eval` itself.

#[cycle(eval)]
#[inline(never)]
fn push_values(
    frame: &Frame<'_>,
    arguments: &[Code],
    values: &mut ArrayVec<Value, 8>,
) -> Result<(), Thrown>
    requires few { length arguments.now ≤ 8 }
    requires none { values.old.items ≡ [] }
    requires room { array_vec_len values.old ≡ 0 }
    ensures { MatchResult result
        (λ u. outcomes.in_order (map (spec.given frame.now) arguments.now) ≡ Ok values.new.items)
        (λ e. outcomes.in_order (map (spec.given frame.now) arguments.now) ≡ Err e) }
{
    for argument in arguments {
        values.push(eval(frame, argument)?);
    }
    Ok(())
}

#[cycle(eval)]
#[inline(never)]
fn eval_call(frame: &Frame<'_>, function: usize, arguments: &[Code]) -> Result<Value, Thrown>
    ensures { result ≡ spec.call (spec.functions_of frame.now.codes.now) function (map (spec.given frame.now) arguments.now) }
{
    if function >= frame.codes.len() || arguments.len() > 8 {
        return Ok(Value::U64(0));
    }
    let mut values = ArrayVec::new();
    push_values(frame, arguments, &mut values)?;
    let inner = Frame {
        codes: &frame.codes[..function],
        values: values.as_slice(),
        notes: &[],
    };
    eval(&inner, &frame.codes[function])
}

// An operand of a chain. Most are leaves, which want no call.
#[cycle(eval)]
#[inline(always)]
fn eval_operand(frame: &Frame<'_>, code: &Code) -> Result<Value, Thrown>
    ensures { result ≡ spec.given frame.now code.now }
{
    match leaf(frame, code) {
        Some(value) => return Ok(value),
        None => return eval(frame, code),
    }
}

#[cycle(eval)]
#[inline(always)]
#[tactic(auto, using(crate::proofs::Chains::from_left_threw))]
fn eval_chain(frame: &Frame<'_>, first: &Code, steps: &[Step]) -> Result<Value, Thrown>
    ensures { result ≡ outcomes.from_left (spec.given frame.now first.now) (map (spec.operation frame.now) steps.now) }
{
    let mut value = eval_operand(frame, first)?;
    for step in steps {
        let operand = eval_operand(frame, &step.operand)?;
        value = operated(step.op, value, operand)?;
    }
    Ok(value)
}

#[cycle(eval)]
#[inline(never)]
fn eval_all(frame: &Frame<'_>, members: &[Code]) -> Result<Value, Thrown>
    ensures { result ≡ outcomes.all_of (map (spec.given frame.now) members.now) }
{
    for member in members {
        if !is_true(eval(frame, member)?) {
            return Ok(Value::Bool(false));
        }
    }
    Ok(Value::Bool(true))
}

#[cycle(eval)]
#[inline(never)]
fn eval_any(frame: &Frame<'_>, members: &[Code]) -> Result<Value, Thrown>
    ensures { result ≡ outcomes.any_of (map (spec.given frame.now) members.now) }
{
    for member in members {
        if is_true(eval(frame, member)?) {
            return Ok(Value::Bool(true));
        }
    }
    Ok(Value::Bool(false))
}

#[cycle(eval)]
#[inline(never)]
fn eval_convert(frame: &Frame<'_>, to: Kind, operand: &Code) -> Result<Value, Thrown>
    ensures { result ≡ outcomes.and_then (spec.given frame.now operand.now) (arithmetic.converted to) }
{
    convert(to, eval(frame, operand)?)
}

#[cycle(eval)]
#[inline(never)]
fn eval_negate(frame: &Frame<'_>, operand: &Code) -> Result<Value, Thrown>
    ensures { result ≡ outcomes.and_then (spec.given frame.now operand.now) arithmetic.negated }
{
    negated(eval(frame, operand)?)
}

#[cycle(eval)]
#[inline(never)]
fn eval_not(frame: &Frame<'_>, operand: &Code) -> Result<Value, Thrown>
    ensures { result ≡ outcomes.and_then (spec.given frame.now operand.now) (λ value. Ok (outcomes.inverted value)) }
{
    Ok(inverted(eval(frame, operand)?))
}

#[cycle(eval)]
#[inline(never)]
fn eval_choice(frame: &Frame<'_>, test: &Code, then: &Code, other: &Code) -> Result<Value, Thrown>
    ensures { result ≡ outcomes.choice (spec.given frame.now test.now) (spec.given frame.now then.now) (spec.given frame.now other.now) }
{
    if is_true(eval(frame, test)?) {
        eval(frame, then)
    } else {
        eval(frame, other)
    }
}

/// What code gives in a frame.
// Each arm returns by itself: at an end that they share, what they give would be copied once more, which took most of the time.
#[cycle(eval)]
#[tactic(auto, using(crate::proofs::Given::gives_by_form))]
pub fn eval(frame: &Frame<'_>, code: &Code) -> Result<Value, Thrown>
    ensures { result ≡ spec.given frame.now code.now }
{
    match code {
        Code::Value(value) => return Ok(*value),
        Code::Local(place) => return local(frame.values, *place),
        Code::Note(place) => return noted(frame.notes, *place),
        Code::Throw(number) => return Err(Thrown::Code(*number)),
        Code::Call(function, arguments) => return eval_call(frame, *function, arguments.as_slice()),
        Code::Convert(to, operand) => return eval_convert(frame, *to, operand.get()),
        Code::Negate(operand) => return eval_negate(frame, operand.get()),
        Code::Not(operand) => return eval_not(frame, operand.get()),
        Code::Chain(first, steps) => return eval_chain(frame, first.get(), steps.as_slice()),
        Code::All(members) => return eval_all(frame, members.as_slice()),
        Code::Any(members) => return eval_any(frame, members.as_slice()),
        Code::If(test, then, other) => return eval_choice(
            frame,
            test.get(),
            then.get(),
            other.get(),
        ),
    }
}
