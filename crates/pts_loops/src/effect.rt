//! What an evaluation does.

ghost use Rattle.std.specs.Prelude.{◌≡◌};
ghost use Rattle.pts_outcomes.specs.Effects.{notes_value};
ghost use Rattle.pts_loops.specs.Points as spec;

use pts_lowering::CellIndex;
use pts_types::{Thrown, Value};

/// What is done at a point at one position: nothing, a note of what a cell or a computation gives, the write of a value, or a throw.
#[derive(Clone, Copy, Debug, PartialEq, Eq)]
pub(crate) enum Effect {
    Skips,
    Throws,
    Notes(Result<Value, Thrown>),
    Puts(CellIndex, Value),
}

/// The write of a value, or a throw where there is no cell or no value.
pub(crate) fn puts(cell: Result<CellIndex, Thrown>, value: Result<Value, Thrown>) -> Effect
    ensures { spec.shown result ≡ spec.put_at cell value }
{
    match (cell, value) {
        (Ok(cell), Ok(value)) => Effect::Puts(cell, value),
        _ => Effect::Throws,
    }
}

/// The note of a value, or a throw.
pub(crate) fn notes_value(value: Result<Value, Thrown>) -> Effect
    ensures { spec.shown result ≡ notes_value value }
{
    match value {
        Ok(value) => Effect::Notes(Ok(value)),
        Err(_) => Effect::Throws,
    }
}
