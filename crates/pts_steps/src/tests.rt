//! One loop, and values that were worked out by hand.

use crate::globals::Globals;
use crate::loops::compile_loops;
use crate::step::Step;
use pts_code::Frame;
use pts_constants::CallText;
use pts_tree::{Atom, BodyStmt, ChainPart, Expr, Loop, Name, Place, Sum};
use pts_types::{Kind, Policy, ScalarOp, Thrown, Value};
use sqlite_items::{Boxed, Items};
use std::alloc::{AllocError, Global};
use std::test::Fail;

fn name(alloc: Global, text: &str) -> Result<Name, AllocError> {
    Ok(Name::new(text.to_string(alloc)?))
}

fn number(alloc: Global, n: u64) -> Sum {
    Sum {
        negative: false,
        first: Atom::Number(n),
        rest: Items::new(alloc),
    }
}

// `a[i]`
fn element(alloc: Global) -> Result<Expr, AllocError> {
    let index = Expr::Name(name(alloc, "i")?);
    Ok(Expr::Element(name(alloc, "a")?, Boxed::new(alloc, index)?))
}

// `let t = a[i] + 1;`
fn binding(alloc: Global) -> Result<BodyStmt, AllocError> {
    let mut parts = Items::new(alloc);
    parts.push(ChainPart {
        op: ScalarOp::Plus,
        operand: Expr::Number(1),
    })?;
    let sum = Expr::Chain(Boxed::new(alloc, element(alloc)?)?, parts);
    Ok(BodyStmt::Let(name(alloc, "t")?, sum))
}

// `a[i] = t;`
fn assignment(alloc: Global) -> Result<BodyStmt, AllocError> {
    let place = Place {
        array: name(alloc, "a")?,
        index: Expr::Name(name(alloc, "i")?),
    };
    Ok(BodyStmt::Assign(place, Expr::Name(name(alloc, "t")?)))
}

fn text(alloc: Global) -> Result<CallText, AllocError> {
    let mut body = Items::new(alloc);
    body.push(binding(alloc)?)?;
    body.push(assignment(alloc)?)?;
    Ok(CallText::Loop(Loop {
        policy: Policy::Seq,
        index: name(alloc, "i")?,
        low: number(alloc, 0),
        high: number(alloc, 4),
        step: None,
        clauses: Items::new(alloc),
        body,
    }))
}

fn compiled(alloc: Global) -> Result<Items<Items<Step>>, Fail> {
    let globals = Globals::new(alloc).with_functions(alloc, &[])?;
    let globals = globals.with_array(alloc, &name(alloc, "a")?, Kind::U64)?;
    let mut texts = Items::new(alloc);
    texts.push(text(alloc)?)?;
    Ok(compile_loops(alloc, globals, texts.as_slice())?)
}

// What a step gives at a position with this index and these notes.
fn value(
    all: &[Items<Step>],
    at: usize,
    index: i64,
    notes: &[Option<Result<Value, Thrown>>],
) -> Option<Option<Result<Value, Thrown>>> {
    let steps = all.get(0)?;
    let frame = Frame {
        codes: &[],
        values: &[Value::I64(index)],
        notes,
    };
    Some(steps.as_slice().get(at)?.value(&frame))
}

#[test]
fn a_loop_computes_its_values(rt: HostRuntime) -> Result<(), Fail> {
    let all = compiled(rt.alloc())?;
    let all = all.as_slice();
    let read = Some(Ok(Value::U64(41)));
    let noted = Some(Ok(Value::U64(42)));
    assert_eq!(rt; value(all, 0, 3, &[]), Some(None));
    assert_eq!(rt; value(all, 1, 3, &[read]), Some(noted));
    assert_eq!(rt; value(all, 2, 3, &[read, noted]), Some(noted));
    assert_eq!(rt; value(all, 3, 3, &[read, noted]), None);
    Ok(())
}
