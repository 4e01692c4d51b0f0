//! What is done at a point of a loop.

ghost use Rattle.std.specs.Prelude.{◌≡◌, [], option_map};
ghost use Rattle.pts_tree.specs.declared.loops.Loop as loops;
ghost use Rattle.pts_rules.specs.Known.{Scope};
ghost use Rattle.pts_code.specs.Codes.{sight_of};
ghost use Rattle.pts_code.specs.Compiling.{Holds, scope_of_names};
ghost use Rattle.pts_code.specs.Values.{Environment};
ghost use Rattle.pts_points.specs.Pieces.{Point};
ghost use Rattle.pts_steps.specs.Steps.{Fits, computation_of, value_at};

use pts_code::{Code, Frame, eval};
use pts_types::{ScalarOp, Thrown, Value};

/// What is done at a point of a loop, with the code of what is computed there.
#[derive(Debug, Drop)]
pub enum Step {
    /// A cell is read.
    Read,
    /// The value is written.
    Write(Code),
    /// The operation is applied to the cell and the value.
    Update(ScalarOp, Code),
    /// The value of a `let` is noted.
    Note(Code),
    /// The value of a test is noted.
    Test(Code),
    /// The value is given to the view of the clause of this number.
    Give(usize, Code),
    /// The cell of a clause is written behind the loop.
    LiveOut,
}

impl Step {
    /// The value that is computed at a position, or what is thrown first; None where nothing is computed. The frame has the
    /// index of the loop and behind it its inductions, in the order of their clauses, and the notes of the points by their
    /// numbers in the loop. It takes no memory.
    #[tactic(auto, using(crate::proofs::Values::value_given))]
    pub fn value(&self, frame: &Frame<'_>) -> Option<Result<Value, Thrown>>
        ensures { (names : Scope) (x : loops.Loop) (point : Point) (globals : Environment)
            → Fits names x point self.now → names ≡ scope_of_names globals → Holds (sight_of frame.now) [] globals
            → result ≡ option_map (value_at x point.context.lets globals (sight_of frame.now)) (computation_of point.deed) }
    {
        match self {
            Step::Read | Step::LiveOut => None,
            Step::Write(code) | Step::Note(code) | Step::Test(code) => Some(eval(frame, code)),
            Step::Update(_, code) => Some(eval(frame, code)),
            Step::Give(_, code) => Some(eval(frame, code)),
        }
    }
}
