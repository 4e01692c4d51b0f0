//! What single statements break: steps, ranges, lengths and identities.

ghost use Rattle.std.specs.Prelude.{◌≡◌, not, ◌-ℤ◌};
ghost use Rattle.std.specs.Ordering.{int_eq};
ghost use Rattle.std.specs.List.{list_any};
ghost use Rattle.pts_rules.specs.Known.{has};
ghost use Rattle.pts_rules.specs.Steps as spec;
ghost use Rattle.pts_rules.specs.Parts as parts;

use crate::numbers::number;
use pts_rules::Scope;
use pts_tree::{ArrayDecl, Call, Clause, Loop, Op, Range, Start};

// The written step of a loop is 0 or leads away from its end.
pub fn steps_badly(scope: &Scope, each: &Loop) -> bool
    ensures { result ≡ spec.steps_badly scope.now (parts.Loop each.now) }
{
    match &each.step {
        None => false,
        Some(step) => is_wrong_step(
            number(scope, &each.low),
            number(scope, &each.high),
            number(scope, step),
        ),
    }
}

fn is_wrong_step(low: i128, high: i128, step: i128) -> bool
    ensures { result ≡ spec.is_wrong_step low high step }
{
    step == 0 || (low < high && step < 0) || (high < low && 0 < step)
}

fn is_backward(scope: &Scope, range: &Range) -> bool
    ensures { result ≡ spec.is_backward scope.now range.now }
{
    number(scope, &range.high) < number(scope, &range.low)
}

fn is_some_backward(scope: &Scope, range: &Option<Range>) -> bool
    ensures { result ≡ has (spec.is_backward scope.now) range.now }
{
    match range {
        None => false,
        Some(range) => is_backward(scope, range),
    }
}

// A range of a call ends before its start.
pub fn call_goes_backward(scope: &Scope, call: &Call) -> bool
    ensures { result ≡ spec.goes_backward scope.now (parts.Call call.now) }
{
    is_backward(scope, &call.first)
        || is_some_backward(scope, &call.second)
        || is_some_backward(scope, &call.target)
}

// A loop without a step ends before its start.
pub fn loop_goes_backward(scope: &Scope, each: &Loop) -> bool
    ensures { result ≡ spec.goes_backward scope.now (parts.Loop each.now) }
{
    each.step.is_none() && number(scope, &each.high) < number(scope, &each.low)
}

fn differs(scope: &Scope, first: &Range, second: &Range) -> bool
    ensures { result ≡ spec.differs scope.now first.now second.now }
{
    differ(
        number(scope, &first.low),
        number(scope, &first.high),
        number(scope, &second.low),
        number(scope, &second.high),
    )
}

// `high` is not as far above `low` as `end` above `start`. Their differences may be too large for an `i128`.
fn differ(low: i128, high: i128, start: i128, end: i128) -> bool
    ensures { result ≡ not (int_eq (high -ℤ low) (end -ℤ start)) }
{
    (high < low) != (end < start) || high.abs_diff(low) != end.abs_diff(start)
}

fn some_differs(scope: &Scope, first: &Range, second: &Option<Range>) -> bool
    ensures { result ≡ has (spec.differs scope.now first.now) second.now }
{
    match second {
        None => false,
        Some(second) => differs(scope, first, second),
    }
}

// The ranges of a call differ in length.
pub fn call_differs(scope: &Scope, call: &Call) -> bool
    ensures { result ≡ spec.differs_in_length scope.now (parts.Call call.now) }
{
    some_differs(scope, &call.first, &call.second) || some_differs(scope, &call.first, &call.target)
}

// A list has another number of values than its array has cells.
pub fn list_differs(scope: &Scope, array: &ArrayDecl) -> bool
    ensures { result ≡ spec.list_differs scope.now array.now array.now.start }
{
    match &array.start {
        Start::List(values) => values.len() as i128 != number(scope, &array.length),
        Start::Fill(_) => false,
        Start::Iota(..) => false,
        Start::Mix(_) => false,
    }
}

fn is_identity_wrong(clause: &Clause) -> bool
    ensures { result ≡ spec.identity_wrong clause.now }
{
    match clause {
        Clause::Reduce(reduce) => match &reduce.op {
            Op::Table(_) => reduce.identity.is_some(),
            Op::Name(_) => reduce.identity.is_none(),
        },
        Clause::Induct(_) => false,
    }
}

// A clause of a loop has an identity beside an operation of the table, or none beside a function.
pub fn has_wrong_identity(each: &Loop) -> bool
    ensures { result ≡ spec.has_wrong_identity (parts.Loop each.now) }
{
    for clause in each.clauses.as_slice() {
        if is_identity_wrong(clause) {
            return true;
        }
    }
    false
}
