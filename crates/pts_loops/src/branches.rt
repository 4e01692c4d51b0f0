//! Which points are reached at a position.

ghost use Rattle.std.specs.Prelude.{◌≡◌, unwrap_or};
ghost use Rattle.pts_code.specs.Outcomes.{never};
ghost use Rattle.pts_code.specs.Values.{note};
ghost use Rattle.pts_outcomes.specs.Effects as effects;
ghost use Rattle.pts_loops.specs.Points as spec;

use crate::run::Run;
use pts_points::Branch;
use pts_types::{Thrown, Value};

fn taken(note: Option<Result<Value, Thrown>>) -> Result<Value, Thrown>
    ensures { result ≡ unwrap_or note never }
{
    match note {
        Some(outcome) => outcome,
        None => Ok(Value::U64(0)),
    }
}

// What was noted at a point.
fn note_at(notes: &[Option<Result<Value, Thrown>>], point: usize) -> Result<Value, Thrown>
    ensures { result ≡ note notes.now point }
{
    match notes.get(point) {
        Some(note) => taken(*note),
        None => Ok(Value::U64(0)),
    }
}

// Whether a test came to this side.
fn is_side(taken: bool, test: Result<Value, Thrown>) -> bool
    ensures { result ≡ effects.is_side taken test }
{
    match test {
        Ok(Value::Bool(truth)) => { if taken { truth } else { !truth } }
        _ => false,
    }
}

impl Run<'_> {
    // Whether the tests of these branches have come to their sides.
    pub(crate) fn is_reached(
        &self,
        branches: &[Branch],
        notes: &[Option<Result<Value, Thrown>>],
    ) -> bool
        ensures { result ≡ spec.is_reached_behind self.now.first_point notes.now branches.now }
    {
        for branch in branches {
            let test = branch.test.saturating_sub(self.first_point);
            if !is_side(branch.taken, note_at(notes, test as usize)) {
                return false;
            }
        }
        true
    }
}
