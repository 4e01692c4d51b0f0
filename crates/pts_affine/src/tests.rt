//! Lines that meet, by a table and by plain enumeration.

ghost use Rattle.std.specs.Prelude.{IfSome};
ghost use Rattle.pts_affine.specs.Lines.{IsBounded};

use crate::{Line, meet, meet_after};

const CELLS: i64 = 1_048_576;

// The line, where it is bounded; a line of at most one position gets the factor 0.
fn bounded(c: i64, d: i64, n: u32) -> Option<Line>
    ensures { IfSome result IsBounded }
{
    if n > 1_048_576 || d < 0 || d >= CELLS {
        return None;
    }
    if n <= 1 {
        return Some(Line { c: 0, d, n });
    }
    let last = c.checked_mul(i64::from(n - 1))?.checked_add(d)?;
    if last < 0 || last >= CELLS {
        return None;
    }
    Some(Line { c, d, n })
}

fn cell(line: Line, p: u32) -> i64 {
    line.c.wrapping_mul(i64::from(p)).wrapping_add(line.d)
}

// The least meeting, by going through the pairs.
fn meeting_by_pairs(x: Line, y: Line, after: bool) -> Option<(u32, u32)> {
    for p in 0..x.n {
        for q in 0..y.n {
            if cell(x, p) == cell(y, q) && (p < q || !after) {
                return Some((p, q));
            }
        }
    }
    None
}

#[test]
fn lines_of_a_table(rt: HostRuntime) {
    let table = [
        ((2, 0, 5), (3, 1, 5), Some((2, 1)), None),
        ((1, 1, 4), (1, 0, 4), Some((0, 1)), Some((0, 1))),
        ((-1, 7, 8), (1, 0, 8), Some((0, 7)), Some((0, 7))),
        ((0, 3, 1), (1, 0, 8), Some((0, 3)), Some((0, 3))),
        ((1, 0, 4), (1, 0, 4), Some((0, 0)), None),
        ((0, 5, 3), (0, 5, 3), Some((0, 0)), Some((0, 1))),
        ((2, 0, 9), (2, 1, 9), None, None),
        (
            (1_048_575, 0, 2),
            (-1_048_575, 1_048_575, 2),
            Some((0, 1)),
            Some((0, 1)),
        ),
        (
            (-1_048_575, 1_048_575, 2),
            (1_048_575, 0, 2),
            Some((0, 1)),
            Some((0, 1)),
        ),
        ((1_048_575, 0, 2), (1_048_575, 0, 2), Some((0, 0)), None),
        (
            (1, 0, 1_048_576),
            (-1, 1_048_575, 1_048_576),
            Some((0, 1_048_575)),
            Some((0, 1_048_575)),
        ),
        (
            (1, 0, 1_048_576),
            (0, 1_048_575, 1),
            Some((1_048_575, 0)),
            None,
        ),
        (
            (0, 1_048_575, 1),
            (1, 0, 1_048_576),
            Some((0, 1_048_575)),
            Some((0, 1_048_575)),
        ),
        (
            (1021, 3, 1020),
            (1019, 1, 1021),
            Some((1018, 1020)),
            Some((1018, 1020)),
        ),
        ((1021, 3, 1020), (1019, 1, 1020), None, None),
        ((0, 0, 0), (0, 0, 1), None, None),
    ];
    for ((c, d, n), (other_c, other_d, other_n), first, later) in table {
        match (bounded(c, d, n), bounded(other_c, other_d, other_n)) {
            (Some(x), Some(y)) => {
                assert_eq!(rt; meet(x, y), first, "{x:?} and {y:?}");
                assert_eq!(rt; meet_after(x, y), later, "{x:?} after {y:?}");
            }
            _ => assert!(rt; false, "a line that leaves the cells"),
        }
    }
}

// Each line with a factor from -4 to 4, some offsets and some lengths, against each other.
#[test]
fn every_pair_of_small_lines(rt: HostRuntime) {
    let mut pairs = 0u32;
    for c in -4..=4 {
        for other_c in -4..=4 {
            for d in [0, 1, 7, 12] {
                for other_d in [0, 3, 8] {
                    for n in [0, 1, 2, 4] {
                        for other_n in [1, 3, 5] {
                            if let (Some(x), Some(y)) = (
                                bounded(c, d, n),
                                bounded(other_c, other_d, other_n),
                            ) {
                                assert_eq!(rt;
                                    meet(x, y),
                                    meeting_by_pairs(x, y, false),
                                    "{x:?} and {y:?}"
                                );
                                assert_eq!(rt;
                                    meet_after(x, y),
                                    meeting_by_pairs(x, y, true),
                                    "{x:?} after {y:?}"
                                );
                                pairs = pairs.wrapping_add(1);
                            }
                        }
                    }
                }
            }
        }
    }
    assert!(rt; 2_000 < pairs, "{pairs} pairs");
}
