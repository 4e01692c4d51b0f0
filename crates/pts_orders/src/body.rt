//! Bodies, which run one evaluation at a time.

ghost use Rattle.std.specs.Prelude.{Option};
ghost use Rattle.pts_orders.specs.Endings.{Ends};
ghost use Rattle.pts_orders.specs.Evaluations.{Evaluation, at};

/// Why a run stops before its end.
#[derive(Clone, Copy, Debug, PartialEq, Eq, Hash)]
pub enum Stop {
    /// An evaluation throws.
    Throws,
    /// There is no memory for what an evaluation does.
    NoMemory,
}

/// What a call does at each of its points, on states of a type.
pub trait Body<S> {
    /// What an evaluation makes of a state. None where it throws.
    ghost acts: { Self → Evaluation → S → Option S };

    /// Runs one evaluation. After an error the state is of no use.
    fn act(&self, position: u32, point: u32, state: &mut S) -> Result<(), Stop>
        ensures { Ends (acts self.now (at position point) state.old) result state.new };
}
