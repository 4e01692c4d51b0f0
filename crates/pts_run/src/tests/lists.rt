//! The lists of a program, and the store and the statements of its run.

use super::built;
use pts_eval::{later, start_store};
use pts_program::Program;
use pts_types::Value;
use std::alloc::{AllocError, Global};
use std::fmt::Write;
use std::test::Fail;

const FRONT: &str =
    "const N = 5; const M = -3; const Z = 9223372036854775808; array a: i64[20] = fill 0; \
    fn f(x: i64) -> i64 = x; fn g(x: i64, y: i64) -> i64 = x; fn p(x: i64) -> bool = x == 0; ";

// Items with constants, and the same items with numbers in their places.
const CONSTANTS: [(&str, &str); 15] = [
    (
        "array b: i64[N - 3] = list M, -Z;",
        "array b: i64[2] = list -3, -9223372036854775808;",
    ),
    (
        "array b: i64[N] = iota N step M;",
        "array b: i64[5] = iota 5 step -3;",
    ),
    ("array b: u64[N] = mix N + 1;", "array b: u64[5] = mix 6;"),
    (
        "fn h(x: i64) -> i64 = x * N + M;",
        "fn h(x: i64) -> i64 = x * 5 + -3;",
    ),
    (
        "fn h(x: i64) -> i64 = -N - -M;",
        "fn h(x: i64) -> i64 = -5 - 3;",
    ),
    (
        "fn h(x: i64) -> i64 = -(N) - -(M) - (-M);",
        "fn h(x: i64) -> i64 = -(5) - -(-3) - (3);",
    ),
    (
        "fn h(x: i64) -> i64 = if x < -Z then g(M, N) else i64(u64(Z));",
        "fn h(x: i64) -> i64 = if x < -9223372036854775808 then g(-3, 5) else i64(u64(9223372036854775808));",
    ),
    (
        "fn h(x: i64) -> bool = x == N && !(x == M || N < x);",
        "fn h(x: i64) -> bool = x == 5 && !(x == -3 || 5 < x);",
    ),
    (
        "for_each par a[N - 1..N + N] f;",
        "for_each par a[4..10] f;",
    ),
    (
        "transform par a[0..N], a[-M..N - M] -> a[N..N + N] g;",
        "transform par a[0..5], a[3..8] -> a[5..10] g;",
    ),
    (
        "reduce par a[0..N] init M plus into a[N];",
        "reduce par a[0..5] init -3 plus into a[5];",
    ),
    (
        "for_loop par i = 1 - N to N step N - 4 reduce a[N] g identity M as v induct k: i64 = M step N induct w: i64 = a[N + 1] step -N { v ~= N; }",
        "for_loop par i = -4 to 5 step 1 reduce a[5] g identity -3 as v induct k: i64 = -3 step 5 induct w: i64 = a[6] step -5 { v ~= 5; }",
    ),
    (
        "for_loop par i = 0 to N { let t = N; if t < -M { a[N + i] = M; } else { vec_off { a[-M] = a[i + N]; } } ordered a[N] += M; }",
        "for_loop par i = 0 to 5 { let t = 5; if t < 3 { a[5 + i] = -3; } else { vec_off { a[3] = a[i + 5]; } } ordered a[5] += -3; }",
    ),
    (
        "task_block { a[N - 2] = N; run { a[N] = M; for_each par a[0..N] f; for_loop par i = 0 to N { a[i] = N; } } }",
        "task_block { a[3] = 5; run { a[5] = -3; for_each par a[0..5] f; for_loop par i = 0 to 5 { a[i] = 5; } } }",
    ),
    (
        "task_block { run { task_block { a[N] = M; find_if par a[0..N] p; wait; } } }",
        "task_block { run { task_block { a[5] = -3; find_if par a[0..5] p; wait; } } }",
    ),
];

fn lists_text(alloc: Global, program: &Program) -> Result<String, AllocError> {
    format!(in alloc;
        "{:?} {:?} {:?} {:?} {:?} {:?} {:?}",
        program.arrays(),
        program.functions(),
        program.statements(),
        program.calls(),
        program.points(),
        program.blocks(),
        program.texts()
    )
}

fn have_one_meaning(alloc: Global, named: &str, plain: &str) -> Result<bool, Fail> {
    let text = lists_text(alloc, &built(alloc, FRONT, named)?)?;
    let wanted = lists_text(alloc, &built(alloc, FRONT, plain)?)?;
    Ok(text.as_str() == wanted.as_str())
}

// The first of the items whose lists are not those of the items beside them.
fn first_other<'a>(alloc: Global, table: &[(&'a str, &str)]) -> Result<Option<&'a str>, Fail> {
    for (named, plain) in table {
        if !have_one_meaning(alloc, named, plain)? {
            return Ok(Some(named));
        }
    }
    Ok(None)
}

#[test]
fn constants_are_the_numbers_that_they_stand_for(rt: HostRuntime) -> Result<(), Fail> {
    assert_eq!(rt; first_other(rt.alloc(), &CONSTANTS)?, None);
    Ok(())
}

// The eighth item is the first of these.
const ITEMS: &str =
    "print a; for_each seq a[0..4] f; task_block { run { for_each unseq a[0..3] f; } wait; \
    task_block { for_loop vec i = 0 to 9 { a[i] = 1; } wait; wait; } } task_block { } reduce par_unseq a[2..2] init 0 plus; print a;";

// The item, the policy, the positions, the first point and the points of each call.
fn calls_text(alloc: Global, program: &Program) -> Result<String, AllocError> {
    let mut text = String::new(alloc);
    for x in program.calls() {
        write!(
            text,
            "{} {:?} {} {} {}; ",
            x.item, x.policy, x.positions, x.first_point, x.points
        )?;
    }
    Ok(text)
}

// The item, the `run`, the `wait` and the statements of each block.
fn blocks_text(alloc: Global, program: &Program) -> Result<String, AllocError> {
    let mut text = String::new(alloc);
    for x in program.blocks() {
        let statements = x.body.body.len();
        write!(text, "{} {} {} {statements}; ", x.item, x.runs, x.waits)?;
    }
    Ok(text)
}

#[test]
fn statements_have_numbers(rt: HostRuntime) -> Result<(), Fail> {
    let alloc = rt.alloc();
    let program = built(alloc, FRONT, ITEMS)?;
    let statements = format!(in alloc; "{:?}", program.statements())?;
    assert_eq!(rt;
        statements.as_str(),
        "[Print(0), Call(0), Block(0), Block(2), Call(3), Print(0)]"
    );
    assert_eq!(rt;
        calls_text(alloc, &program)?.as_str(),
        "9 Seq 4 0 2; 10 Unseq 3 0 2; 10 Vector 9 2 1; 12 ParUnseq 0 0 1; "
    );
    assert_eq!(rt;
        blocks_text(alloc, &program)?.as_str(),
        "10 1 1 3; 10 0 2 3; 11 0 0 0; "
    );
    Ok(())
}

#[test]
fn a_store_starts_with_the_cells_of_the_arrays(rt: HostRuntime) -> Result<(), Fail> {
    let items = "array a: u64[2] = list 7, 8; array b: bool[1] = fill true; print b;";
    let program = built(rt.alloc(), "", items)?;
    let store = start_store(rt.alloc(), &program).ok().ok_or("no store")?;
    assert_eq!(rt; store.cells(0), [Value::U64(7), Value::U64(8)].as_slice());
    assert_eq!(rt; store.cells(1), [Value::Bool(true)].as_slice());
    assert!(rt; store.cells(2).is_empty());
    if store.cells(0).len() == 2 {
        assert_eq!(rt; store.cell(0, 1), Value::U64(8));
    }
    Ok(())
}

#[test]
fn the_first_statement_that_is_not_built_is_named(rt: HostRuntime) -> Result<(), Fail> {
    let items = "array b: u64[9] = fill 0; print b; reduce par b[0..N] init 3 min into b[8]; \
        inclusive_scan seq b[0..2] -> b[3..5] plus; task_block { }";
    let program = built(rt.alloc(), "const N = 5; ", items)?;
    assert_eq!(rt; later(&program), Some(6));
    Ok(())
}
