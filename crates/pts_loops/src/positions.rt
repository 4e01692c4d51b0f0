//! Positions, one after the other, and at each its points.

ghost use Rattle.std.specs.Prelude.{◌≡◌, ◌<◌, ◌≤◌, ◌+◌, IfOk};
ghost use Rattle.pts_clear.specs.Showing.{HasCells};
ghost use Rattle.pts_loops.specs.Turns.{Goes, IsAtPoint, IsAtPosition, IsReady, last};

use crate::run::Run;
use crate::turn::Turn;
use pts_boards::{Gate, Passing, Pool};
use pts_code::Frame;
use pts_types::NoMemory;

impl Run<'_> {
    // Runs a point at a position; false where its evaluation throws.
    fn run_point(&self, turn: &mut Turn<'_>, p: u32, k: usize) -> Result<bool, NoMemory>
        requires ready { IsReady self.now }
        requires cells { HasCells self.now.arrays.now turn.old.layer.below }
        requires position { p < self.now.head.now.positions }
        requires point { k < last self.now turn.old.layer.below }
        requires so_far { IsAtPoint self.now turn.old.layer.below p k turn.old }
        ensures goes { IfOk result (λ goes. Goes self.now turn.old.layer.below (IsAtPoint self.now turn.old.layer.below p (k + 1)) goes turn.new) }
        ensures below { turn.new.layer.below ≡ turn.old.layer.below }
    {
        let frame = Frame {
            codes: self.functions.codes(),
            values: turn.values.as_slice(),
            notes: turn.notes.as_slice(),
        };
        let effect = self.effect(&frame, &turn.layer, p, &self.points[k], &self.steps[k]);
        let goes = turn.make(k, effect)?;
        Ok(goes)
    }

    // Runs the points of a position.
    fn run_points(&self, turn: &mut Turn<'_>, p: u32) -> Result<bool, NoMemory>
        requires ready { IsReady self.now }
        requires cells { HasCells self.now.arrays.now turn.old.layer.below }
        requires position { p < self.now.head.now.positions }
        requires so_far { IsAtPoint self.now turn.old.layer.below p turn.old.first turn.old }
        ensures goes { IfOk result (λ goes. Goes self.now turn.old.layer.below (IsAtPoint self.now turn.old.layer.below p (last self.now turn.old.layer.below)) goes turn.new) }
        ensures below { turn.new.layer.below ≡ turn.old.layer.below }
    {
        for k in turn.first..self.steps.len() {
            if !self.run_point(turn, p, k)? {
                return Ok(false);
            }
        }
        Ok(true)
    }

    // Runs a position; false where an evaluation throws.
    fn run_position(&self, turn: &mut Turn<'_>, p: u32) -> Result<bool, NoMemory>
        requires ready { IsReady self.now }
        requires cells { HasCells self.now.arrays.now turn.old.layer.below }
        requires position { p < self.now.head.now.positions }
        requires so_far { IsAtPosition self.now turn.old.layer.below p turn.old }
        ensures goes { IfOk result (λ goes. Goes self.now turn.old.layer.below (IsAtPosition self.now turn.old.layer.below (p + 1)) goes turn.new) }
        ensures below { turn.new.layer.below ≡ turn.old.layer.below }
    {
        self.enter(turn, p)?;
        if !self.run_points(turn, p)? {
            return Ok(false);
        }
        self.gather(turn);
        Ok(true)
    }

    // Runs the positions from `low` on and before `high`.
    fn run_chunk(&self, turn: &mut Turn<'_>, low: u32, high: u32) -> Result<bool, NoMemory>
        requires ready { IsReady self.now }
        requires cells { HasCells self.now.arrays.now turn.old.layer.below }
        requires order { low ≤ high }
        requires within { high ≤ self.now.head.now.positions }
        requires so_far { IsAtPosition self.now turn.old.layer.below low turn.old }
        ensures goes { IfOk result (λ goes. Goes self.now turn.old.layer.below (IsAtPosition self.now turn.old.layer.below high) goes turn.new) }
        ensures below { turn.new.layer.below ≡ turn.old.layer.below }
    {
        for p in low..high {
            if !self.run_position(turn, p)? {
                return Ok(false);
            }
        }
        Ok(true)
    }

    /// Runs all positions, chunk by chunk past the gate; false where an evaluation throws.
    pub(crate) fn run_chunks<G: Gate>(
        &self,
        gate: &G,
        pool: Pool,
        turn: &mut Turn<'_>,
    ) -> Result<bool, NoMemory>
        requires ready { IsReady self.now }
        requires cells { HasCells self.now.arrays.now turn.old.layer.below }
        requires begun { IsAtPosition self.now turn.old.layer.below 0 turn.old }
        ensures goes { IfOk result (λ goes. Goes self.now turn.old.layer.below (IsAtPosition self.now turn.old.layer.below self.now.head.now.positions) goes turn.new) }
        ensures below { turn.new.layer.below ≡ turn.old.layer.below }
    {
        let count = self.head.positions;
        let mut low = 0;
        let mut chunk = 0;
        while low < count {
            gate.pass(Passing::Chunk {
                call: self.call,
                chunk,
            });
            let high = low + pool.chunk.min(count - low);
            if !self.run_chunk(turn, low, high)? {
                return Ok(false);
            }
            low = high;
            chunk += 1;
        }
        Ok(true)
    }
}
