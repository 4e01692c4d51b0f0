//! The values of the expressions of a loop, over their trees.

use crate::script::read_script;
use pts_code::numbers_in;
use pts_eval::{Local, eval_expr};
use pts_io::MemorySource;
use pts_program::build;
use pts_tree::{BodyStmt, Expr, Item, Name, Script};
use pts_types::{Kind, Thrown, Value};
use std::alloc::{AllocError, Global};
use std::fmt::Write;
use std::test::Fail;

type Outcome = Result<Value, Thrown>;

// What the loop at the end of a script assigns first.
fn assigned(script: &Script) -> Option<&Expr> {
    let Item::Loop(last) = script.items.as_slice().last()? else {
        return None;
    };
    let BodyStmt::Assign(_, expr) = last.body.as_slice().first()? else {
        return None;
    };
    Some(expr)
}

// The value of an expression of a loop, where `i` is 3 and its elements gave these outcomes.
fn value_of(alloc: Global, expr: &str, reads: &[Outcome]) -> Result<Outcome, Fail> {
    let text = format!(in alloc;
        "pts 1; array a: i64[9] = fill 0; fn h(x: i64) -> i64 = x / 2; \
        for_loop seq i = 0 to 5 {{ a[i] = {expr}; }}"
    )?;
    let mut source = MemorySource::new(text.as_bytes().to_vec(alloc)?, Vec::new(alloc));
    let script = read_script(alloc, &mut source).ok().ok_or("no script")?;
    let program = build(alloc, &script).ok().ok_or("no program")?;
    let expr = assigned(&script).ok_or("no expression")?;
    if numbers_in(expr, false) > reads.len() {
        return Err("too few outcomes".into());
    }
    let index = Local {
        name: Name::new("i".to_string(alloc)?),
        value: Value::I64(3),
    };
    Ok(eval_expr(&program, Kind::I64, expr, &[index], reads))
}

// What elements gave: a number each, and any other word for a throw.
fn outcomes_of(alloc: Global, words: &str) -> Result<Vec<Outcome>, Fail> {
    let mut outcomes = Vec::new(alloc);
    for word in words.split(' ') {
        let outcome = match word.parse::<i64>() {
            Ok(number) => Ok(Value::I64(number)),
            Err(_) => Err(Thrown::Code(9)),
        };
        outcomes.push(outcome).map_err(AllocError::from)?;
    }
    Ok(outcomes)
}

// The first of the expressions that has another value.
fn first_other<'a>(
    alloc: Global,
    table: &[(&'a str, &str, &str)],
) -> Result<Option<&'a str>, Fail> {
    for (expr, words, wanted) in table {
        let value = value_of(alloc, expr, &outcomes_of(alloc, words)?)?;
        if format!(in alloc; "{value:?}")?.as_str() != *wanted {
            return Ok(Some(expr));
        }
    }
    Ok(None)
}

// Expressions, what their elements gave, and their values. All of this is text, since a long table of values takes the prover minutes.
const VALUES: [(&str, &str, &str); 8] = [
    ("i * 2 - 1", "", "Ok(I64(5))"),
    ("a[i] - i", "7", "Ok(I64(4))"),
    ("a[i + 1] / a[0]", "7 -2", "Ok(I64(-3))"),
    ("h(a[0])", "7", "Ok(I64(3))"),
    ("1 / 0 + a[0]", "throw", "Err(DivZero)"),
    ("a[0] + 1 / 0", "throw", "Err(Code(9))"),
    ("if i < 3 then a[0] else a[1]", "throw 7", "Ok(I64(7))"),
    ("a[0] * 2", "9223372036854775807", "Err(Overflow)"),
];

#[test]
fn expressions_have_values(rt: HostRuntime) -> Result<(), Fail> {
    assert_eq!(rt; first_other(rt.alloc(), &VALUES)?, None);
    Ok(())
}
