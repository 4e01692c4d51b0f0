//! Each kernel against a plain loop over `apply`, and an example of the gather.

use crate::{compare_u64, count_true, fold_u64, gather_u64, map2_u64, min_max_i64, select_u64};
use pts_types::{ScalarOp, Value, apply};

const MOST: usize = 1_000;

const LENGTHS: [usize; 7] = [0, 1, 7, 8, 9, 17, MOST];

const OPERATIONS: [ScalarOp; 14] = [
    ScalarOp::Plus,
    ScalarOp::Minus,
    ScalarOp::Multiplies,
    ScalarOp::BitAnd,
    ScalarOp::BitOr,
    ScalarOp::BitXor,
    ScalarOp::Min,
    ScalarOp::Max,
    ScalarOp::Less,
    ScalarOp::LessEqual,
    ScalarOp::Greater,
    ScalarOp::GreaterEqual,
    ScalarOp::Equal,
    ScalarOp::NotEqual,
];

// Numbers of all sizes, among them equal ones.
fn numbers(seed: u64) -> [u64; MOST] {
    let mut state = seed;
    let mut numbers = [0; MOST];
    for x in &mut numbers {
        state = state
            .wrapping_mul(6_364_136_223_846_793_005)
            .wrapping_add(1_442_695_040_888_963_407);
        *x = if state >> 63 == 0 { state >> 61 } else { state };
    }
    numbers
}

fn truths(seed: u64) -> [bool; MOST] {
    let mut truths = [false; MOST];
    for (truth, x) in truths.iter_mut().zip(numbers(seed)) {
        *truth = x % 2 == 1;
    }
    truths
}

fn fold_by_apply(op: ScalarOp, init: u64, xs: &[u64]) -> Option<u64> {
    let mut value = init;
    for x in xs {
        value = match apply(op, Value::U64(value), Value::U64(*x)) {
            Ok(Value::U64(next)) => next,
            _ => return None,
        };
    }
    Some(value)
}

fn folded(op: ScalarOp, init: u64, xs: &[u64]) -> Option<u64> {
    match op {
        ScalarOp::Plus
        | ScalarOp::Multiplies
        | ScalarOp::BitAnd
        | ScalarOp::BitOr
        | ScalarOp::BitXor
        | ScalarOp::Min
        | ScalarOp::Max => Some(fold_u64(op, init, xs)),
        _ => None,
    }
}

#[test]
fn folds_are_left_folds(rt: HostRuntime) {
    let xs = numbers(1);
    for n in LENGTHS {
        for op in OPERATIONS {
            if let Some(value) = folded(op, 5, &xs[..n]) {
                assert_eq!(rt;
                    Some(value),
                    fold_by_apply(op, 5, &xs[..n]),
                    "{op:?} of {n}"
                );
            }
        }
    }
}

#[test]
fn pairs_are_taken_one_by_one(rt: HostRuntime) {
    let (xs, ys) = (numbers(2), numbers(3));
    for n in LENGTHS {
        for op in OPERATIONS {
            let mut out = [7; MOST];
            let mut truths = [false; MOST];
            match op {
                ScalarOp::Plus
                | ScalarOp::Minus
                | ScalarOp::Multiplies
                | ScalarOp::BitAnd
                | ScalarOp::BitOr
                | ScalarOp::BitXor
                | ScalarOp::Min
                | ScalarOp::Max => map2_u64(op, &xs[..n], &ys[..n], &mut out[..n]),
                ScalarOp::Less
                | ScalarOp::LessEqual
                | ScalarOp::Greater
                | ScalarOp::GreaterEqual
                | ScalarOp::Equal
                | ScalarOp::NotEqual => compare_u64(op, &xs[..n], &ys[..n], &mut truths[..n]),
                _ => (),
            }
            for i in 0..n {
                match apply(op, Value::U64(xs[i]), Value::U64(ys[i])) {
                    Ok(Value::U64(value)) => assert_eq!(rt; out[i], value, "{op:?} at {i} of {n}"),
                    Ok(Value::Bool(truth)) => assert_eq!(rt;
                        truths[i],
                        truth,
                        "{op:?} at {i} of {n}"
                    ),
                    _ => assert!(rt; false, "{op:?} throws"),
                }
            }
        }
    }
}

#[test]
fn choices_counts_and_extremes(rt: HostRuntime) {
    let (mask, xs, ys) = (truths(4), numbers(5), numbers(6));
    let mut signed = [0; MOST];
    for (z, x) in signed.iter_mut().zip(xs) {
        *z = x.cast_signed();
    }
    for n in LENGTHS {
        let mut out = [7; MOST];
        select_u64(&mask[..n], &xs[..n], &ys[..n], &mut out[..n]);
        let mut count = 0usize;
        for i in 0..n {
            assert_eq!(rt;
                out[i],
                if mask[i] { xs[i] } else { ys[i] },
                "at {i} of {n}"
            );
            count = count.wrapping_add(usize::from(mask[i]));
        }
        assert_eq!(rt; count_true(&mask[..n]), count, "{n} truths");
        let (mut least, mut greatest) = (i64::MAX, i64::MIN);
        for z in &signed[..n] {
            least = least.min(*z);
            greatest = greatest.max(*z);
        }
        let ends = if n == 0 {
            None
        } else {
            Some((least, greatest))
        };
        assert_eq!(rt; min_max_i64(&signed[..n]), ends, "{n} numbers");
    }
}

#[test]
fn gathers_cells_that_are_there(rt: HostRuntime) {
    let mut out = [7; 3];
    let mut found = [false; 3];
    gather_u64(&[10, 20, 30], &[2, 3, 0], &mut out, &mut found);
    assert_eq!(rt; out, [30, 0, 10]);
    assert_eq!(rt; found, [true, false, true]);

    let (xs, at) = (numbers(7), numbers(8));
    for n in LENGTHS {
        let mut out = [7; MOST];
        let mut found = [false; MOST];
        gather_u64(&xs[..n], &at[..n], &mut out[..n], &mut found[..n]);
        for i in 0..n {
            let cell = if at[i] < n as u64 {
                xs[..n].get(at[i] as usize).copied()
            } else {
                None
            };
            assert_eq!(rt; found[i], cell.is_some(), "at {i} of {n}");
            assert_eq!(rt; out[i], cell.unwrap_or(0), "at {i} of {n}");
        }
    }
}
