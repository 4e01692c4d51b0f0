//! Command lines, and whole calls over sources and sinks in memory. Tables of scripts and their texts stand in `tests/`
//! at the top, and go through the built program.

mod gates;
mod lists;
mod points;
mod values;

use crate::script::read_script;
use crate::{Command, Status, read_words, run_words};
use pts_boards::{NoGate, Pool};
use pts_eval::eval_fn;
use pts_io::{MemorySink, MemorySource};
use pts_program::{Program, build};
use pts_types::{Thrown, Value};
use std::alloc::{AllocError, Global};
use std::test::Fail;
use std::thread::Threads;

// The number of a call that never comes.
const NEVER: u64 = 999;

const ONE_LINE: &str = "pts 1; array a: u64[3] = list 1, 2, 3; reduce seq a[0..3] init 0 plus;";

const TWO_LINES: &str =
    "pts 1; array a: u64[3] = list 1, 2, 3; reduce seq a[0..3] init 0 plus; print a;";

fn words(alloc: Global, texts: &[&str]) -> Result<Vec<String>, AllocError> {
    texts
        .iter()
        .map(|text| text.to_string(alloc))
        .try_collect(alloc)
}

// A call with these words on the script, and the sink that it wrote to. The calls of these numbers fail.
fn call<R: Threads + Sync>(
    rt: &R,
    alloc: Global,
    texts: &[&str],
    script: &[u8],
    failing_read: u64,
    failing_write: u64,
) -> Result<(Status, MemorySink), Fail> {
    let fails = [failing_read].to_vec(alloc)?;
    let mut source = MemorySource::new(script.to_vec(alloc)?, fails);
    let mut sink = MemorySink::new(alloc, 1000, [failing_write].to_vec(alloc)?)?;
    let status = run_words(
        rt,
        alloc,
        &words(alloc, texts)?,
        &mut source,
        &mut sink,
        &NoGate,
    );
    Ok((status, sink))
}

// The program of a script with these items behind those of the front.
fn built(alloc: Global, front: &str, items: &str) -> Result<Program, Fail> {
    let text = format!(in alloc; "pts 1; {front}{items}")?;
    let program = program_of(alloc, text.as_bytes()).ok_or("no program")?;
    Ok(program)
}

fn program_of(alloc: Global, text: &[u8]) -> Option<Program> {
    let mut source = MemorySource::new(text.to_vec(alloc).ok()?, Vec::new(alloc));
    let script = read_script(alloc, &mut source).ok()?;
    build(alloc, &script).ok()
}

// The first of the command lines that is read as another.
fn first_misread<'a>(
    alloc: Global,
    table: &[(&'a [&'a str], Command)],
) -> Result<Option<&'a [&'a str]>, Fail> {
    for (texts, command) in table {
        if read_words(&words(alloc, texts)?) != Some(*command) {
            return Ok(Some(texts));
        }
    }
    Ok(None)
}

#[test]
fn reads_the_words_of_a_command(rt: HostRuntime) -> Result<(), Fail> {
    let some = Pool::new(4, 1_024).ok_or("no pool")?;
    let most = Pool::new(64, 65_536).ok_or("no pool")?;
    let table: [(&[&str], Command); 5] = [
        (&["run"], Command::Run { pool: some }),
        (
            &["run", "--workers", "64", "--chunk", "65536"],
            Command::Run { pool: most },
        ),
        (
            &["run", "--chunk", "65536", "--workers", "64"],
            Command::Run { pool: most },
        ),
        (&["check"], Command::Check),
        (&["print"], Command::Print),
    ];
    assert!(rt; first_misread(rt.alloc(), &table)?.is_none());
    Ok(())
}

// The first of the command lines that is one, reads or writes: each call of the source and of the sink would fail.
fn first_command<'a, R: Threads + Sync>(
    rt: &R,
    alloc: Global,
    table: &[&'a [&'a str]],
) -> Result<Option<&'a [&'a str]>, Fail> {
    for texts in table {
        let (found, sink) = call(rt, alloc, texts, ONE_LINE.as_bytes(), 0, 0)?;
        if found != Status::Usage || !sink.bytes().is_empty() {
            return Ok(Some(texts));
        }
    }
    Ok(None)
}

#[test]
fn other_words_read_and_write_nothing(rt: HostRuntime) -> Result<(), Fail> {
    let table: [&[&str]; 5] = [
        &[],
        &["run", "--workers", "0"],
        &["run", "--chunk", "1", "--chunk", "1"],
        &["check", "x"],
        &["print", "--workers", "1"],
    ];
    assert!(rt; first_command(&rt, rt.alloc(), &table)?.is_none());
    Ok(())
}

// The first of the scripts that gives another status or another text.
fn first_other<'a, R: Threads + Sync>(
    rt: &R,
    alloc: Global,
    word: &str,
    table: &[(&'a str, Status, &str)],
) -> Result<Option<&'a str>, Fail> {
    for (script, status, text) in table {
        let (found, sink) = call(rt, alloc, &[word], script.as_bytes(), NEVER, NEVER)?;
        if found != *status || sink.bytes() != text.as_bytes() {
            return Ok(Some(script));
        }
    }
    Ok(None)
}

#[test]
fn writes_the_lines_or_the_refusal(rt: HostRuntime) -> Result<(), Fail> {
    let table: [(&str, Status, &str); 11] = [
        ("pts 1;", Status::Done, ""),
        (ONE_LINE, Status::Done, "1: reduce 6\n"),
        (TWO_LINES, Status::Done, "1: reduce 6\n2: print a 1 2 3\n"),
        (
            "pts 1; const N = 2 + 1; array a: i64[N] = iota 5 step -2; print a;",
            Status::Done,
            "1: print a 5 3 1\n",
        ),
        (
            "pts 1; array a: u64[5] = fill 0; for_loop seq i = 0 to 5 { a[i] = a[i+1]; }",
            Status::Refused,
            "refused out_of_range item 2 position 4\n",
        ),
        (
            "pts 1; array a: u64[2] = list 1;",
            Status::Refused,
            "refused lengths_differ item 1\n",
        ),
        (
            "pts 1; fn f(x: u64) -> u64 = f(x);",
            Status::Refused,
            "refused unknown item 1\n",
        ),
        (
            "pts 1;array a: u64[1] = fill 0;for_loop seq i = 0 to 1 {",
            Status::Refused,
            "refused syntax at 56\n",
        ),
        ("pts 1; ) @", Status::Refused, "refused byte at 9\n"),
        (
            "pts 1; const N = 18446744073709551616;",
            Status::Refused,
            "refused number at 17\n",
        ),
        ("pts 2;", Status::Refused, "refused syntax at 4\n"),
    ];
    assert_eq!(rt; first_other(&rt, rt.alloc(), "run", &table)?, None);
    Ok(())
}

#[test]
fn checks_and_prints(rt: HostRuntime) -> Result<(), Fail> {
    let checked = [(ONE_LINE, Status::Done, "accepted\n")];
    assert_eq!(rt; first_other(&rt, rt.alloc(), "check", &checked)?, None);
    let printed = [("pts 01;print  a;", Status::Done, "pts 1 ;\nprint a ;\n")];
    assert_eq!(rt; first_other(&rt, rt.alloc(), "print", &printed)?, None);
    Ok(())
}

// The value of `f(x, y)`, where the script declares f alone.
fn value_of(alloc: Global, text: &[u8], x: i64, y: i64) -> Option<Result<Value, Thrown>> {
    let program = program_of(alloc, text)?;
    if program.functions().is_empty() {
        return None;
    }
    Some(eval_fn(&program, 0, &[Value::I64(x), Value::I64(y)]))
}

// Whether the function has each of these values.
fn has_values(alloc: Global, text: &[u8], table: &[(i64, i64, Result<Value, Thrown>)]) -> bool {
    for (x, y, value) in table {
        if value_of(alloc, text, *x, *y) != Some(*value) {
            return false;
        }
    }
    true
}

#[test]
fn functions_have_values(rt: HostRuntime) {
    let text = b"pts 1; fn f(x: i64, y: i64) -> i64 = x / y + x % y;";
    let table = [
        (-7, 2, Ok(Value::I64(-4))),
        (7, 0, Err(Thrown::DivZero)),
        (i64::MIN, -1, Err(Thrown::Overflow)),
    ];
    assert!(rt; has_values(rt.alloc(), text, &table));
}

// The first status that two lines do not end with, or not with this text, where these calls fail.
fn first_missed<R: Threads + Sync>(
    rt: &R,
    alloc: Global,
    table: &[(u64, u64, Status, &str)],
) -> Result<Option<Status>, Fail> {
    for (failing_read, failing_write, status, text) in table {
        let script = TWO_LINES.as_bytes();
        let (found, sink) = call(rt, alloc, &["run"], script, *failing_read, *failing_write)?;
        if found != *status || sink.bytes() != text.as_bytes() {
            return Ok(Some(*status));
        }
    }
    Ok(None)
}

#[test]
fn stops_at_a_fault(rt: HostRuntime) -> Result<(), Fail> {
    let table = [
        (0, NEVER, Status::ReadFault, ""),
        (1, NEVER, Status::ReadFault, ""),
        (NEVER, 0, Status::WriteFault, ""),
        (NEVER, 1, Status::WriteFault, "1: reduce 6\n"),
    ];
    assert_eq!(rt; first_missed(&rt, rt.alloc(), &table)?, None);
    Ok(())
}
