//! The points of each form of statement, by hand.

use super::built;
use pts_points::PointInfo;
use pts_program::Program;
use std::alloc::{AllocError, Global};
use std::fmt::Write;
use std::test::Fail;

// Six items, so that those of the statements begin with 7.
const FRONT: &str =
    "array a: u64[20] = fill 0; array b: u64[20] = fill 0; array c: u64[20] = fill 0; \
    fn f(x: u64) -> u64 = x; fn p(x: u64) -> bool = x == 0; fn g(x: u64, y: u64) -> u64 = x; ";

// Statements and their points: the item and the number, the form, the number of the array, the line (its factor, its
// offset and how many positions it has), the call, the tests around it and the `off`.
const POINTS: [(&str, &str); 32] = [
    ("print a;", ""),
    ("task_block { throw 1; wait; run { } }", ""),
    (
        "for_each par a[2..6] f;",
        "7.0 Read 0 (1, 2, 4) call 0; 7.1 Write 0 (1, 2, 4) call 0; ",
    ),
    (
        "for_each par a[5..6] f;",
        "7.0 Read 0 (0, 5, 1) call 0; 7.1 Write 0 (0, 5, 1) call 0; ",
    ),
    (
        "for_each par a[20..20] f;",
        "7.0 Read 0 (0, 20, 0) call 0; 7.1 Write 0 (0, 20, 0) call 0; ",
    ),
    (
        "transform par a[0..3] -> b[5..8] f;",
        "7.0 Read 0 (1, 0, 3) call 0; 7.1 Write 1 (1, 5, 3) call 0; ",
    ),
    (
        "transform par b[0..3], a[1..4] -> c[2..5] g;",
        "7.0 Read 1 (1, 0, 3) call 0; 7.1 Read 0 (1, 1, 3) call 0; 7.2 Write 2 (1, 2, 3) call 0; ",
    ),
    ("find_if par a[4..7] p;", "7.0 Read 0 (1, 4, 3) call 0; "),
    (
        "find_if par a[4..7] p into b[1];",
        "7.0 Read 0 (1, 4, 3) call 0; 7.1 Into 1 (0, 1, 1) call 0; ",
    ),
    ("count_if par a[4..7] p;", "7.0 Read 0 (1, 4, 3) call 0; "),
    (
        "count_if par a[4..7] p into b[1];",
        "7.0 Read 0 (1, 4, 3) call 0; 7.1 Into 1 (0, 1, 1) call 0; ",
    ),
    (
        "reduce par a[0..4] init 0 plus;",
        "7.0 Read 0 (1, 0, 4) call 0; ",
    ),
    (
        "reduce par a[0..4] init 0 plus into b[3];",
        "7.0 Read 0 (1, 0, 4) call 0; 7.1 Into 1 (0, 3, 1) call 0; ",
    ),
    (
        "transform_reduce par a[0..4] init 0 plus f;",
        "7.0 Read 0 (1, 0, 4) call 0; ",
    ),
    (
        "transform_reduce par a[0..4], b[1..5] init 0 plus g into c[0];",
        "7.0 Read 0 (1, 0, 4) call 0; 7.1 Read 1 (1, 1, 4) call 0; 7.2 Into 2 (0, 0, 1) call 0; ",
    ),
    (
        "inclusive_scan par a[0..5] -> b[5..10] plus;",
        "7.0 Read 0 (1, 0, 5) call 0; 7.1 Write 1 (1, 5, 5) call 0; ",
    ),
    (
        "exclusive_scan par a[0..5] -> b[5..10] init 0 plus;",
        "7.0 Read 0 (1, 0, 5) call 0; 7.1 Write 1 (1, 5, 5) call 0; ",
    ),
    (
        "transform_inclusive_scan par a[0..5] -> b[5..10] plus f;",
        "7.0 Read 0 (1, 0, 5) call 0; 7.1 Write 1 (1, 5, 5) call 0; ",
    ),
    (
        "transform_exclusive_scan par a[0..5] -> b[5..10] init 0 plus f;",
        "7.0 Read 0 (1, 0, 5) call 0; 7.1 Write 1 (1, 5, 5) call 0; ",
    ),
    // The reads of a statement in text order, and then its own point.
    (
        "for_loop par i = 0 to 10 { a[i] = b[2 * i] + g(c[i + 1], b[3]); }",
        "7.0 Read 1 (2, 0, 10) call 0; 7.1 Read 2 (1, 1, 10) call 0; 7.2 Read 1 (0, 3, 10) call 0; 7.3 Write 0 (1, 0, 10) call 0; ",
    ),
    (
        "for_loop par i = 9 to 1 step -2 { a[i] = 1; }",
        "7.0 Write 0 (-2, 9, 4) call 0; ",
    ),
    (
        "for_loop par i = 3 to 4 { a[2 * i] = b[i]; }",
        "7.0 Read 1 (0, 3, 1) call 0; 7.1 Write 0 (0, 6, 1) call 0; ",
    ),
    (
        "for_loop par i = 3 to 3 { a[i] = 1; }",
        "7.0 Write 0 (0, 0, 0) call 0; ",
    ),
    (
        "for_loop par i = 0 to 4 { let t = if a[i] == 0 then b[i] else c[i]; }",
        "7.0 Read 0 (1, 0, 4) call 0; 7.1 Read 1 (1, 0, 4) call 0; 7.2 Read 2 (1, 0, 4) call 0; 7.3 Plain 0 (0, 0, 0) call 0; ",
    ),
    // An induction without a cell has no point.
    (
        "for_loop par i = 0 to 4 reduce b[3] plus as v induct s: u64 = 5 induct t: u64 = a[6] { v ~= c[i]; }",
        "7.0 LiveOut 1 (0, 3, 1) call 0; 7.1 LiveOut 0 (0, 6, 1) call 0; 7.2 Read 2 (1, 0, 4) call 0; 7.3 Plain 0 (0, 0, 0) call 0; ",
    ),
    (
        "for_loop par i = 0 to 4 { if a[i] == 0 { b[i] = 1; } else { c[i] = a[i]; } b[i + 4] = 2; }",
        "7.0 Read 0 (1, 0, 4) call 0; 7.1 Plain 0 (0, 0, 0) call 0; 7.2 Write 1 (1, 0, 4) call 0 if 1; 7.3 Read 0 (1, 0, 4) call 0 else 1; \
        7.4 Write 2 (1, 0, 4) call 0 else 1; 7.5 Write 1 (1, 4, 4) call 0; ",
    ),
    (
        "for_loop par i = 0 to 4 { if true { if i == 0 { a[i] = 1; } else { if i == 1 { b[i] = 1; } } } }",
        "7.0 Plain 0 (0, 0, 0) call 0; 7.1 Plain 0 (0, 0, 0) call 0 if 0; 7.2 Write 0 (1, 0, 4) call 0 if 0 if 1; \
        7.3 Plain 0 (0, 0, 0) call 0 if 0 else 1; 7.4 Write 1 (1, 0, 4) call 0 if 0 else 1 if 3; ",
    ),
    (
        "for_loop vec i = 0 to 4 { ordered a[i] += b[i]; ordered a[i] ^= 1; }",
        "7.0 Read 1 (1, 0, 4) call 0; 7.1 Update 0 (1, 0, 4) call 0 off 0; 7.2 Update 0 (1, 0, 4) call 0 off 1; ",
    ),
    // Updates and blocks inside of a block without vectors have its number.
    (
        "for_loop vec i = 0 to 4 { vec_off { a[i] = b[i]; vec_off { ordered c[i] += a[i]; } } if true { ordered c[i] += 1; vec_off { let t = 1; } } }",
        "7.0 Read 1 (1, 0, 4) call 0 off 0; 7.1 Write 0 (1, 0, 4) call 0 off 0; 7.2 Read 0 (1, 0, 4) call 0 off 0; 7.3 Update 2 (1, 0, 4) call 0 off 0; \
        7.4 Plain 0 (0, 0, 0) call 0; 7.5 Update 2 (1, 0, 4) call 0 if 4 off 1; 7.6 Plain 0 (0, 0, 0) call 0 if 4 off 2; ",
    ),
    (
        "task_block { a[1] = b[2] + b[3]; run { a[4] = 1; for_each par b[0..2] f; } wait; }",
        "7.0 Read 1 (0, 2, 1); 7.1 Read 1 (0, 3, 1); 7.2 Write 0 (0, 1, 1); 7.3 Write 0 (0, 4, 1); 7.4 Read 1 (1, 0, 2) call 0; 7.5 Write 1 (1, 0, 2) call 0; ",
    ),
    (
        "task_block { task_block { reduce par c[0..3] init 0 plus into a[9]; } for_loop par i = 0 to 2 { a[i] = 1; } }",
        "7.0 Read 2 (1, 0, 3) call 0; 7.1 Into 0 (0, 9, 1) call 0; 7.2 Write 0 (1, 0, 2) call 1; ",
    ),
    (
        "for_each par a[0..2] f; print a; for_loop par i = 0 to 2 { if true { vec_off { b[i] = 1; } } }",
        "7.0 Read 0 (1, 0, 2) call 0; 7.1 Write 0 (1, 0, 2) call 0; 9.0 Plain 0 (0, 0, 0) call 1; 9.1 Write 1 (1, 0, 2) call 1 if 0 off 0; ",
    ),
];

fn put_point(text: &mut String, point: &PointInfo) -> Result<(), AllocError> {
    let (array, line) = (point.array, point.line);
    write!(
        text,
        "{}.{} {:?} {array} ({}, {}, {})",
        point.item, point.number, point.form, line.c, line.d, line.n
    )?;
    if let Some(call) = point.call {
        write!(text, " call {call}")?;
    }
    for branch in point.branches.as_slice() {
        let side = if branch.taken { "if" } else { "else" };
        write!(text, " {side} {}", branch.test)?;
    }
    if let Some(off) = point.off {
        write!(text, " off {off}")?;
    }
    text.push_str("; ")
}

fn points_text(alloc: Global, program: &Program) -> Result<String, AllocError> {
    let mut text = String::new(alloc);
    for point in program.points() {
        put_point(&mut text, point)?;
    }
    Ok(text)
}

fn has_points(alloc: Global, statements: &str, points: &str) -> Result<bool, Fail> {
    let program = built(alloc, FRONT, statements)?;
    let text = points_text(alloc, &program)?;
    Ok(text.as_str() == points)
}

// The first of the statements that have other points.
fn first_other<'a>(alloc: Global, table: &[(&'a str, &str)]) -> Result<Option<&'a str>, Fail> {
    for (statements, points) in table {
        if !has_points(alloc, statements, points)? {
            return Ok(Some(statements));
        }
    }
    Ok(None)
}

#[test]
fn statements_have_points(rt: HostRuntime) -> Result<(), Fail> {
    assert_eq!(rt; first_other(rt.alloc(), &POINTS)?, None);
    Ok(())
}
