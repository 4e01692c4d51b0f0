//! Runs of a body that writes down what it is asked to do.

ghost use Rattle.std.specs.Prelude.{◌+◌, ◌*◌, ◌%◌, ◌^◌, Some, None, nat_eq, if◌then◌else◌};

use crate::{Body, Cuts, Stop, Stretch, run_grid, run_points, run_strip, run_strips};

// Adds two digits for each evaluation, its position and its point, and throws at one position.
struct Digits {
    throws_at: u32,
}

impl Body<u64> for Digits {
    ghost acts = { λ b x s. if nat_eq x.position b.throws_at then None else Some ((s * 100 % 2 ^ 64 + (x.position * 10 + x.point)) % 2 ^ 64) };

    fn act(&self, position: u32, point: u32, state: &mut u64) -> Result<(), Stop> {
        if position == self.throws_at {
            return Err(Stop::Throws);
        }
        let digits = u64::from(position) * 10 + u64::from(point);
        *state = state.wrapping_mul(100).wrapping_add(digits);
        Ok(())
    }
}

const BODY: Digits = Digits { throws_at: 9 };

const BOTH: Stretch = Stretch { from: 1, to: 3 };

#[test]
fn points_run_one_after_the_other(rt: HostRuntime) {
    let mut state = 0;
    assert_eq!(rt;
        run_points(&BODY, 1, Stretch { from: 2, to: 5 }, &mut state),
        Ok(())
    );
    assert_eq!(rt; state, 12_13_14);
}

#[test]
fn a_grid_runs_position_by_position(rt: HostRuntime) {
    let mut state = 0;
    assert_eq!(rt; run_grid(&BODY, BOTH, BOTH, &mut state), Ok(()));
    assert_eq!(rt; state, 11_12_21_22);
}

#[test]
fn a_strip_runs_part_by_part(rt: HostRuntime) {
    let mut state = 0;
    let points = Cuts {
        from: 1,
        ends: &[2, 4],
    };
    assert_eq!(rt; run_strip(&BODY, BOTH, points, &mut state), Ok(()));
    assert_eq!(rt; state, 11_21_12_13_22_23);
}

#[test]
fn strips_run_one_after_the_other(rt: HostRuntime) {
    let mut state = 0;
    let positions = Cuts {
        from: 1,
        ends: &[3, 4],
    };
    let points = Cuts {
        from: 1,
        ends: &[2, 3],
    };
    assert_eq!(rt; run_strips(&BODY, positions, points, &mut state), Ok(()));
    assert_eq!(rt; state, 11_21_12_22_31_32);
}

#[test]
fn a_run_ends_where_it_throws(rt: HostRuntime) {
    let mut state = 0;
    let all = Stretch { from: 1, to: 20 };
    assert_eq!(rt; run_grid(&BODY, all, BOTH, &mut state), Err(Stop::Throws));
}
