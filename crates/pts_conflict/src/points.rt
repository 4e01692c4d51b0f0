//! Two points: whether and where they meet, in one call and in parts of a block.

ghost use Rattle.std.specs.Prelude.{◌≡◌, ◌≤◌, ◌^◌, ◌||◌, ◌&&◌};
ghost use Rattle.pts_affine.specs.Lines.{IsBounded};
ghost use Rattle.pts_points.specs.declared.point.PointForm.TheVariants as forms;
ghost use Rattle.pts_points.specs.Standings.{IsCell};
ghost use Rattle.pts_conflict.specs.Search as spec;
ghost use Rattle.pts_conflict.specs.Search.{FindsFirst, IsFit, MeetAlong, PairInCall, PairOfParts, rank_of};
ghost use Rattle.pts_conflict.specs.Touches as touches;

use crate::found::Found;
use crate::meeting::least_meeting;
use crate::order::are_ordered;
use crate::pair::Pair;
use pts_affine::Line;
use pts_points::{CallInfo, PointForm, PointInfo};

fn is_writing(form: PointForm) -> bool
    ensures { result ≡ touches.is_writing form }
{
    !matches!(form, PointForm::Read | PointForm::Plain)
}

pub fn is_live_out(form: PointForm) -> bool
    ensures { result ≡ touches.is_live_out form }
{
    matches!(form, PointForm::LiveOut)
}

fn one_writes(a: &PointInfo, b: &PointInfo) -> bool
    ensures { result ≡ (touches.is_writing a.now.form || touches.is_writing b.now.form) }
{
    is_writing(a.form) || is_writing(b.form)
}

fn are_clauses(a: &PointInfo, b: &PointInfo) -> bool
    ensures { result ≡ (touches.is_live_out a.now.form && touches.is_live_out b.now.form) }
{
    is_live_out(a.form) && is_live_out(b.form)
}

const NO_CELLS: Line = Line { c: 0, d: 0, n: 0 };

#[tactic(auto, using(crate::proofs::Clashes::bounded_again, crate::proofs::Clashes::bounded_none))]
fn line_in_call(call: &CallInfo, form: PointForm, line: Line) -> Line
    requires few { call.now.positions ≤ 2 ^ 20 }
    requires bounded { IsBounded line }
    requires clause { form ≡ forms.LiveOut → IsCell line }
    ensures line { result ≡ spec.line_in_call call.now form line }
    ensures bounded { IsBounded result }
{
    match form {
        PointForm::LiveOut => Line {
            n: call.positions,
            ..line
        },
        PointForm::Into | PointForm::Plain => NO_CELLS,
        _ => line,
    }
}

#[tactic(auto, using(crate::proofs::Clashes::bounded_none))]
fn line_beside(form: PointForm, line: Line) -> Line
    requires { IsBounded line }
    ensures line { result ≡ spec.line_beside form line }
    ensures bounded { IsBounded result }
{
    match form {
        PointForm::Plain => NO_CELLS,
        _ => line,
    }
}

// The least pair at which two points meet along these lines, one of them writing.
#[tactic(auto, using(crate::proofs::Clashes::other_arrays, crate::proofs::Clashes::none_write, crate::proofs::Clashes::none_meet, crate::proofs::Clashes::some_meet))]
fn least_pair(after: bool, a: &PointInfo, first: Line, b: &PointInfo, second: Line) -> Option<Pair>
    requires first { IsBounded first }
    requires second { IsBounded second }
    ensures { FindsFirst (MeetAlong after a.now first b.now second) spec.by_pair result }
{
    if a.array != b.array || !one_writes(a, b) {
        return None;
    }
    match least_meeting(after, first, second) {
        Some(meeting) => Some(Pair {
            item: a.item,
            array: a.array,
            cell: meeting.cell,
            p: meeting.p,
            k: a.number,
            q: meeting.q,
            m: b.number,
        }),
        None => None,
    }
}

/// The least conflict of two points in one call.
#[tactic(auto, using(crate::proofs::Clashes::two_clauses, crate::proofs::Clashes::in_order, crate::proofs::Clashes::call_none, crate::proofs::Clashes::call_some))]
pub fn least_in_call(
    number: usize,
    call: &CallInfo,
    is_loop: bool,
    a: &PointInfo,
    b: &PointInfo,
) -> Option<Found>
    requires few { call.now.positions ≤ 2 ^ 20 }
    requires first { IsFit a.now }
    requires second { IsFit b.now }
    ensures { FindsFirst (PairInCall number call.now is_loop a.now b.now) rank_of result }
{
    if are_clauses(a, b) {
        return None;
    }
    let first = line_in_call(call, a.form, a.line);
    let second = line_in_call(call, b.form, b.line);
    match least_pair(true, a, first, b, second) {
        Some(pair) => {
            // Last, since the points may stand under many tests.
            if are_ordered(call.policy, is_loop, a, b) {
                None
            } else {
                Some(Found {
                    call: Some(number),
                    pair,
                })
            }
        }
        None => None,
    }
}

/// The least conflict of two points of parts that are concurrent.
#[tactic(auto, using(crate::proofs::Clashes::parts_none, crate::proofs::Clashes::parts_some))]
pub fn least_of_parts(a: &PointInfo, b: &PointInfo) -> Option<Found>
    requires first { IsFit a.now }
    requires second { IsFit b.now }
    ensures { FindsFirst (PairOfParts a.now b.now) rank_of result }
{
    let first = line_beside(a.form, a.line);
    let second = line_beside(b.form, b.line);
    match least_pair(false, a, first, b, second) {
        Some(pair) => Some(Found { call: None, pair }),
        None => None,
    }
}
