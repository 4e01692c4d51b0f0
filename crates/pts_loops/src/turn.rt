//! How far a loop has come.

ghost use Rattle.std.specs.Prelude.{◌<◌, IfOk, length};
ghost use Rattle.pts_loops.specs.Points.{shown};
ghost use Rattle.pts_loops.specs.Turns.{Keeps, Makes};

use crate::effect::Effect;
use pts_store::Overlay;
use pts_types::{NoMemory, Thrown, Value};

/// What a loop has written and given so far, and what is known at the position at which it is.
#[derive(Drop)]
pub(crate) struct Turn<'a> {
    pub layer: Overlay<'a>,
    /// How many cells the clauses name: the points of the body stand behind them.
    pub first: usize,
    /// What each clause begins with.
    pub begun: Vec<Value>,
    /// The index and the inductions.
    pub values: Vec<Value>,
    /// What has been noted at each point.
    pub notes: Vec<Option<Result<Value, Thrown>>>,
    /// That of each reduction, by the numbers of the clauses; None where it has thrown.
    pub accumulators: Vec<Option<Value>>,
}

impl Turn<'_> {
    // Makes an effect at a point; false where it is a throw.
    pub fn make(&mut self, point: usize, effect: Effect) -> Result<bool, NoMemory>
        requires { point < length self.old.notes.items }
        ensures makes { IfOk result (λ goes. Makes (shown effect) point goes self.old self.new) }
        ensures keeps { Keeps self.old self.new }
    {
        match effect {
            Effect::Skips => {}
            Effect::Throws => return Ok(false),
            Effect::Notes(outcome) => self.notes[point] = Some(outcome),
            Effect::Puts(cell, value) => self.layer.set(cell.array, cell.index, value)?,
        }
        Ok(true)
    }
}
