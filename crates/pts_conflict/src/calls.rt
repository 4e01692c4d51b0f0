//! The first conflict in a call.

ghost use Rattle.std.specs.Prelude.{◌≡◌, ◌≢◌, ◌<◌, true, false, length};
ghost use Rattle.pts_conflict.specs.Conflicts as conflicts;
ghost use Rattle.pts_conflict.specs.Search.{FindsFirst, InCallOf, InSomeCall, rank_of};

use crate::found::{Found, lower};
use crate::search::{InCall, least_across};
use pts_layout::points_of_call;
use pts_lowering::LoweredCall;
use pts_program::Program;
use pts_types::Policy;

fn is_loop(program: &Program, call: usize) -> bool
    requires { call < length program.now.lowered_calls }
    ensures { result ≡ conflicts.is_loop program.now call }
{
    matches!(program.lowered_calls()[call], LoweredCall::Loop(_))
}

fn runs_in_order(policy: Policy) -> bool
    ensures yes { result ≡ true → policy ≡ Policy.Seq }
    ensures no { result ≡ false → policy ≢ Policy.Seq }
{
    matches!(policy, Policy::Seq)
}

fn least_in(program: &Program, number: usize) -> Option<Found>
    requires { number < length program.now.calls }
    ensures { FindsFirst (InCallOf program.now number) rank_of result }
{
    program.keeps_its_promises();
    let call = &program.calls()[number];
    if runs_in_order(call.policy) {
        return None;
    }
    let points = points_of_call(program, number);
    let pairs = InCall {
        number,
        call: *call,
        is_loop: is_loop(program, number),
    };
    least_across(&pairs, points, points)
}

/// The first of the conflicts that are pairs of one call.
pub fn least_in_calls(program: &Program) -> Option<Found>
    ensures { FindsFirst (InSomeCall program.now) rank_of result }
{
    let mut best = None;
    for number in 0..program.calls().len() {
        best = lower(best, least_in(program, number));
    }
    best
}
