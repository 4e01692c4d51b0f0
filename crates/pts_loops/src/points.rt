//! What is done at a point at one position.

ghost use Rattle.std.specs.Prelude.{◌≡◌};
ghost use Rattle.pts_code.specs.Codes.{sight_of};
ghost use Rattle.pts_code.specs.Outcomes.{operate};
ghost use Rattle.pts_program.specs.Ranges.{IsInRange};
ghost use Rattle.pts_loops.specs.Points as spec;
ghost use Rattle.pts_clear.specs.Showing.{HasCells};

use crate::cells::read;
use crate::effect::{Effect, notes_value, puts};
use crate::run::Run;
use pts_code::{Frame, eval, operated};
use pts_points::PointInfo;
use pts_steps::Step;
use pts_store::Overlay;
use pts_types::{ScalarOp, Thrown, Value};

// An operation on what a cell holds and on its operand.
fn updated(
    op: ScalarOp,
    held: Result<Value, Thrown>,
    operand: Result<Value, Thrown>,
) -> Result<Value, Thrown>
    ensures { result ≡ operate held (op, operand) }
{
    match (held, operand) {
        (Ok(held), Ok(operand)) => operated(op, held, operand),
        (Err(thrown), _) => Err(thrown),
        (_, Err(thrown)) => Err(thrown),
    }
}

impl Run<'_> {
    // What is done at a point that is reached.
    fn act(
        &self,
        frame: &Frame<'_>,
        layer: &Overlay<'_>,
        p: u32,
        point: &PointInfo,
        step: &Step,
    ) -> Effect
        requires range { IsInRange self.now.arrays.now point.now }
        requires cells { HasCells self.now.arrays.now layer.now.stands }
        ensures { spec.shown result ≡ spec.act_of layer.now.stands (sight_of frame.now) p point.now step.now }
    {
        match step {
            Step::Read => Effect::Notes(read(layer, self.place(point, p))),
            Step::Write(code) => puts(self.place(point, p), eval(frame, code)),
            Step::Update(op, code) => {
                let place = self.place(point, p);
                puts(place, updated(*op, read(layer, place), eval(frame, code)))
            }
            Step::Note(code) | Step::Test(code) => notes_value(eval(frame, code)),
            Step::Give(_, code) => notes_value(eval(frame, code)),
            Step::LiveOut => Effect::Notes(Ok(Value::U64(0))),
        }
    }

    /// What is done at a point: nothing where it is not reached.
    pub(crate) fn effect(
        &self,
        frame: &Frame<'_>,
        layer: &Overlay<'_>,
        p: u32,
        point: &PointInfo,
        step: &Step,
    ) -> Effect
        requires range { IsInRange self.now.arrays.now point.now }
        requires cells { HasCells self.now.arrays.now layer.now.stands }
        ensures { spec.shown result ≡ spec.effect_of self.now.first_point layer.now.stands (sight_of frame.now) p point.now step.now }
    {
        if !self.is_reached(point.branches.as_slice(), frame.notes) {
            return Effect::Skips;
        }
        self.act(frame, layer, p, point, step)
    }
}
