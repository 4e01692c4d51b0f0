//! Nested loops over the evaluations of a call.

ghost use Rattle.std.specs.Prelude.{◌-◌};
ghost use Rattle.pts_orders.specs.Endings.{Ends};
ghost use Rattle.pts_orders.specs.Grids.{points_at, grid, strip, strips};
ghost use Rattle.pts_orders.specs.Runs.{run};

use crate::body::{Body, Stop};
use crate::stretch::{Cuts, Stretch};

/// Runs points at a position.
#[tactic(auto, using(crate::proofs::Turns::point_turns))]
pub fn run_points<S, B: Body<S>>(
    body: &B,
    position: u32,
    points: Stretch,
    state: &mut S,
) -> Result<(), Stop>
    ensures { Ends (run (B.acts body.now) (points_at position points.from (points.to - points.from)) state.old) result state.new }
{
    for point in points.from..points.to {
        body.act(position, point, state)?;
    }
    Ok(())
}

/// Runs points at each position, position by position.
#[tactic(auto, using(crate::proofs::Turns::grid_turns))]
pub fn run_grid<S, B: Body<S>>(
    body: &B,
    positions: Stretch,
    points: Stretch,
    state: &mut S,
) -> Result<(), Stop>
    ensures { Ends (run (B.acts body.now) (grid positions.from (positions.to - positions.from) points.from (points.to - points.from)) state.old) result state.new }
{
    for position in positions.from..positions.to {
        run_points(body, position, points, state)?;
    }
    Ok(())
}

/// Runs each part of the points at all positions before the next part.
#[tactic(auto, using(crate::proofs::Turns::strip_turns))]
pub fn run_strip<S, B: Body<S>>(
    body: &B,
    positions: Stretch,
    points: Cuts<'_>,
    state: &mut S,
) -> Result<(), Stop>
    ensures { Ends (run (B.acts body.now) (strip positions.from (positions.to - positions.from) points.entry.from points.entry.ends.now) state.old) result state.new }
{
    let mut from = points.from;
    for end in points.ends {
        run_grid(body, positions, Stretch { from, to: *end }, state)?;
        from = *end;
    }
    Ok(())
}

/// Runs strip after strip: each has the positions up to one of the cuts.
#[tactic(auto, using(crate::proofs::Turns::strips_turns))]
pub fn run_strips<S, B: Body<S>>(
    body: &B,
    positions: Cuts<'_>,
    points: Cuts<'_>,
    state: &mut S,
) -> Result<(), Stop>
    ensures { Ends (run (B.acts body.now) (strips positions.entry.from positions.entry.ends.now points.entry.from points.entry.ends.now) state.old) result state.new }
{
    let mut start = positions.from;
    for row in positions.ends {
        let strip = Stretch {
            from: start,
            to: *row,
        };
        run_strip(body, strip, points, state)?;
        start = *row;
    }
    Ok(())
}
