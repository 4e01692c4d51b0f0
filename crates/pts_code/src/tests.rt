//! Values worked out by hand, and the deepest functions.

ghost use Rattle.std.specs.Prelude.{◌<◌};

use crate::code::Code;
use crate::codes::{Codes, enter_functions};
use crate::compiling::{Names, Spot, compile};
use crate::evaluation::{Frame, eval};
use crate::function::FunctionInfo;
use crate::numbers::numbers_in;
use pts_rules::{Meaning, Scope};
use pts_tree::{ChainPart, Expr, Name, Param};
use pts_types::{Kind, ScalarOp, Thrown, Value};
use sqlite_items::{Boxed, Items};
use std::alloc::{AllocError, Global};
use std::test::Fail;
use std::thread::join;

// ---- trees, written with operators behind their operands

#[derive(Clone, Copy)]
enum Token {
    Number(u64),
    Truth(bool),
    Name(&'static str),
    // An element, whose index stands before it.
    Element(&'static str),
    Minus,
    Chain(ScalarOp),
    // One part more of the chain that stands before the operand.
    Part(ScalarOp),
    Compare(ScalarOp),
    All,
    Any,
    If,
    Call(&'static str),
    CallTwo(&'static str),
}

fn name(alloc: Global, text: &str) -> Result<Name, AllocError> {
    Ok(Name::new(text.to_string(alloc)?))
}

fn popped(stack: &mut Vec<Expr>) -> Result<Expr, AllocError> {
    match stack.pop() {
        Some(expr) => Ok(expr),
        None => Err(AllocError),
    }
}

fn boxed(alloc: Global, stack: &mut Vec<Expr>) -> Result<Boxed<Expr>, AllocError> {
    Boxed::new(alloc, popped(stack)?)
}

fn one(alloc: Global, stack: &mut Vec<Expr>) -> Result<Items<Expr>, AllocError> {
    let mut members = Items::new(alloc);
    members.push(popped(stack)?)?;
    Ok(members)
}

fn pair(alloc: Global, stack: &mut Vec<Expr>) -> Result<Items<Expr>, AllocError> {
    let second = popped(stack)?;
    let mut members = one(alloc, stack)?;
    members.push(second)?;
    Ok(members)
}

fn chain(alloc: Global, op: ScalarOp, stack: &mut Vec<Expr>) -> Result<Expr, AllocError> {
    let operand = popped(stack)?;
    let mut parts = Items::new(alloc);
    parts.push(ChainPart { op, operand })?;
    Ok(Expr::Chain(boxed(alloc, stack)?, parts))
}

fn longer_chain(op: ScalarOp, stack: &mut Vec<Expr>) -> Result<Expr, AllocError> {
    let operand = popped(stack)?;
    let Expr::Chain(first, mut parts) = popped(stack)? else {
        return Err(AllocError);
    };
    parts.push(ChainPart { op, operand })?;
    Ok(Expr::Chain(first, parts))
}

fn compare(alloc: Global, op: ScalarOp, stack: &mut Vec<Expr>) -> Result<Expr, AllocError> {
    let right = boxed(alloc, stack)?;
    Ok(Expr::Compare(op, boxed(alloc, stack)?, right))
}

fn choice(alloc: Global, stack: &mut Vec<Expr>) -> Result<Expr, AllocError> {
    let other = boxed(alloc, stack)?;
    let then = boxed(alloc, stack)?;
    Ok(Expr::If(boxed(alloc, stack)?, then, other))
}

fn built(alloc: Global, token: Token, stack: &mut Vec<Expr>) -> Result<Expr, AllocError> {
    match token {
        Token::Number(number) => Ok(Expr::Number(number)),
        Token::Truth(truth) => Ok(if truth { Expr::True } else { Expr::False }),
        Token::Name(text) => Ok(Expr::Name(name(alloc, text)?)),
        Token::Element(text) => Ok(Expr::Element(name(alloc, text)?, boxed(alloc, stack)?)),
        Token::Minus => Ok(Expr::Minus(boxed(alloc, stack)?)),
        Token::Chain(op) => chain(alloc, op, stack),
        Token::Part(op) => longer_chain(op, stack),
        Token::Compare(op) => compare(alloc, op, stack),
        Token::All => Ok(Expr::All(pair(alloc, stack)?)),
        Token::Any => Ok(Expr::Any(pair(alloc, stack)?)),
        Token::If => choice(alloc, stack),
        Token::Call(text) => Ok(Expr::Call(name(alloc, text)?, one(alloc, stack)?)),
        Token::CallTwo(text) => Ok(Expr::Call(name(alloc, text)?, pair(alloc, stack)?)),
    }
}

fn put_all(alloc: Global, tokens: &[Token], stack: &mut Vec<Expr>) -> Result<(), AllocError> {
    for token in tokens {
        let expr = built(alloc, *token, stack)?;
        stack.push(expr)?;
    }
    Ok(())
}

fn tree(alloc: Global, tokens: &[Token]) -> Result<Expr, AllocError> {
    let mut stack = Vec::new(alloc);
    put_all(alloc, tokens, &mut stack)?;
    popped(&mut stack)
}

// ---- functions

fn params_of(alloc: Global, names: &[&str], kind: Kind) -> Result<Items<Param>, AllocError> {
    let mut all = Items::new(alloc);
    for text in names {
        all.push(Param {
            name: name(alloc, text)?,
            kind,
        })?;
    }
    Ok(all)
}

fn with_function(alloc: Global, codes: Codes, function: FunctionInfo) -> Result<Codes, AllocError> {
    if function.params.len() <= 8 {
        codes.push(alloc, function).map_err(|_| AllocError)
    } else {
        Err(AllocError)
    }
}

fn outcome(codes: &Codes, function: usize, arguments: &[Value]) -> Option<Result<Value, Thrown>> {
    if function < codes.functions().len() {
        Some(codes.call(function, arguments))
    } else {
        None
    }
}

// ---- expressions with elements and faults

const X: Token = Token::Name("x");

const ZERO: Token = Token::Number(0);

const A: Token = Token::Element("a");

const MINUS: Token = Token::Chain(ScalarOp::Minus);

const EQUAL: Token = Token::Compare(ScalarOp::Equal);

// (x - 1 - 2) * 3 == 6
const LEFT: &[Token] = &[
    X,
    Token::Number(1),
    MINUS,
    Token::Number(2),
    Token::Part(ScalarOp::Minus),
    Token::Number(3),
    Token::Chain(ScalarOp::Multiplies),
    Token::Number(6),
    EQUAL,
];

// What the elements of each row gave, and behind it the local value t.
const NOTES: &[Option<Result<Value, Thrown>>] = &[
    Some(Ok(Value::U64(10))),
    Some(Err(Thrown::Overflow)),
    None,
    Some(Ok(Value::U64(7))),
];

struct Row {
    tokens: &'static [Token],
    outcome: Result<Value, Thrown>,
}

const ROWS: &[Row] = &[
    // a[0] - t - 2
    Row {
        tokens: &[
            ZERO,
            A,
            Token::Name("t"),
            MINUS,
            Token::Number(2),
            Token::Part(ScalarOp::Minus),
        ],
        outcome: Ok(Value::U64(1)),
    },
    // a[0] - a[0]
    Row {
        tokens: &[ZERO, A, ZERO, A, MINUS],
        outcome: Err(Thrown::Overflow),
    },
    // a[a[0]], whose index stands before it
    Row {
        tokens: &[ZERO, A, A],
        outcome: Err(Thrown::Overflow),
    },
    // if x == 5 then a[0] else a[0]
    Row {
        tokens: &[X, Token::Number(5), EQUAL, ZERO, A, ZERO, A, Token::If],
        outcome: Ok(Value::U64(10)),
    },
    // if x == 4 then a[0] else a[0]
    Row {
        tokens: &[X, Token::Number(4), EQUAL, ZERO, A, ZERO, A, Token::If],
        outcome: Err(Thrown::Overflow),
    },
    // a[0] == 9 && a[0] == 9
    Row {
        tokens: &[
            ZERO,
            A,
            Token::Number(9),
            EQUAL,
            ZERO,
            A,
            Token::Number(9),
            EQUAL,
            Token::All,
        ],
        outcome: Ok(Value::Bool(false)),
    },
    // a[0] == 10 || a[0] == 10
    Row {
        tokens: &[
            ZERO,
            A,
            Token::Number(10),
            EQUAL,
            ZERO,
            A,
            Token::Number(10),
            EQUAL,
            Token::Any,
        ],
        outcome: Ok(Value::Bool(true)),
    },
    // difference(a[0], x)
    Row {
        tokens: &[ZERO, A, X, Token::CallTwo("difference")],
        outcome: Ok(Value::U64(5)),
    },
];

// x - y
fn difference(alloc: Global) -> Result<FunctionInfo, AllocError> {
    Ok(FunctionInfo {
        name: name(alloc, "difference")?,
        params: params_of(alloc, &["x", "y"], Kind::U64)?,
        kind: Kind::U64,
        body: tree(alloc, &[X, Token::Name("y"), MINUS])?,
    })
}

// The functions, the array a, and the local values x and t.
fn names_of(alloc: Global, codes: &Codes) -> Result<Scope, AllocError> {
    let mut scope = Scope::new(alloc);
    let Ok(()) = enter_functions(alloc, &mut scope, codes.functions()) else {
        return Err(AllocError);
    };
    let Ok(()) = scope.enter(alloc, &name(alloc, "a")?, Meaning::Array(Kind::U64, 0)) else {
        return Err(AllocError);
    };
    let Ok(()) = scope.enter(alloc, &name(alloc, "x")?, Meaning::Value(Kind::U64)) else {
        return Err(AllocError);
    };
    let Ok(()) = scope.enter(alloc, &name(alloc, "t")?, Meaning::Value(Kind::U64)) else {
        return Err(AllocError);
    };
    Ok(scope)
}

fn code_of(alloc: Global, scope: &Scope, kind: Kind, expr: &Expr) -> Result<Code, AllocError> {
    if numbers_in(expr, true) == usize::MAX {
        return Err(AllocError);
    }
    let spots = [Spot::Local(0), Spot::Note(3)];
    let names = Names {
        scope,
        spots: &spots,
    };
    compile(alloc, &names, kind, 0, expr)
}

fn kind_of(outcome: Result<Value, Thrown>) -> Kind {
    match outcome {
        Ok(Value::Bool(_)) => Kind::Bool,
        _ => Kind::U64,
    }
}

fn row_holds(alloc: Global, codes: &Codes, row: &Row) -> Result<bool, AllocError> {
    let scope = names_of(alloc, codes)?;
    let expr = tree(alloc, row.tokens)?;
    let code = code_of(alloc, &scope, kind_of(row.outcome), &expr)?;
    let frame = Frame {
        codes: codes.codes(),
        values: &[Value::U64(5)],
        notes: NOTES,
    };
    Ok(eval(&frame, &code) == row.outcome)
}

// How many rows hold.
fn rows_that_hold(alloc: Global, codes: &Codes, rows: &[Row]) -> Result<u32, AllocError> {
    let mut count: u32 = 0;
    for row in rows {
        if row_holds(alloc, codes, row)? {
            count = count.wrapping_add(1);
        }
    }
    Ok(count)
}

#[test]
fn elements_give_what_was_noted_where_they_are_taken(rt: HostRuntime) -> Result<(), Fail> {
    let alloc = rt.alloc();
    let codes = with_function(alloc, Codes::new(alloc), difference(alloc)?)?;
    assert_eq!(rt; rows_that_hold(alloc, &codes, ROWS)?, 8);
    Ok(())
}

// The operators of a chain that begins with what stands in no chain.
fn operators(code: &Code) -> Option<(ScalarOp, ScalarOp, ScalarOp, ScalarOp)> {
    let Code::Chain(first, steps) = code else {
        return None;
    };
    match (first.get(), steps.as_slice()) {
        (Code::Local(0), [one, two, three, four]) => Some((one.op, two.op, three.op, four.op)),
        _ => None,
    }
}

#[test]
fn chains_on_the_left_are_one_chain(rt: HostRuntime) -> Result<(), Fail> {
    let alloc = rt.alloc();
    let codes = with_function(alloc, Codes::new(alloc), difference(alloc)?)?;
    let scope = names_of(alloc, &codes)?;
    let code = code_of(alloc, &scope, Kind::Bool, &tree(alloc, LEFT)?)?;
    assert_eq!(rt;
        operators(&code),
        Some((
            ScalarOp::Minus,
            ScalarOp::Minus,
            ScalarOp::Multiplies,
            ScalarOp::Equal
        ))
    );
    let frame = Frame {
        codes: codes.codes(),
        values: &[Value::U64(5)],
        notes: NOTES,
    };
    assert_eq!(rt; eval(&frame, &code), Ok(Value::Bool(true)));
    Ok(())
}

// ---- the deepest functions

const NAMES: [&str; 16] = [
    "a", "b", "c", "d", "e", "f", "g", "h", "i", "j", "k", "l", "m", "n", "o", "p",
];

// a(if 0 == 0 ^ 0 + 1 * -(x) && true || false then 1 else 0), where x, behind 1, 0, 0 and 0, is on the stack.
const DEEPER: &[Token] = &[
    Token::Minus,
    Token::Chain(ScalarOp::Multiplies),
    Token::Chain(ScalarOp::Plus),
    Token::Chain(ScalarOp::BitXor),
    Token::Compare(ScalarOp::Equal),
    Token::Truth(true),
    Token::All,
    Token::Truth(false),
    Token::Any,
    Token::Number(1),
    Token::Number(0),
    Token::If,
    Token::Call("a"),
];

const BEFORE: &[Token] = &[
    Token::Number(0),
    Token::Number(0),
    Token::Number(0),
    Token::Number(1),
];

fn put_times(
    alloc: Global,
    tokens: &[Token],
    times: u32,
    stack: &mut Vec<Expr>,
) -> Result<(), AllocError> {
    for _ in 0..times {
        put_all(alloc, tokens, stack)?;
    }
    Ok(())
}

// A call of a function inside 63 brackets, with each level of the grammar between two of them. Each bracket turns 0 into 1
// and 1 into 0, so that a body does, and so do the fifteen functions behind the first together.
fn deep_body(alloc: Global, called: &'static str) -> Result<Expr, AllocError> {
    let mut stack = Vec::new(alloc);
    put_times(alloc, BEFORE, 63, &mut stack)?;
    put_all(alloc, &[X, Token::Call(called)], &mut stack)?;
    put_times(alloc, DEEPER, 63, &mut stack)?;
    popped(&mut stack)
}

fn deep_function(alloc: Global, at: usize) -> Result<FunctionInfo, AllocError>
    requires { at < 16 }
{
    let body = if at == 0 {
        Expr::Name(name(alloc, "x")?)
    } else {
        deep_body(alloc, NAMES[at - 1])?
    };
    Ok(FunctionInfo {
        name: name(alloc, NAMES[at])?,
        params: params_of(alloc, &["x"], Kind::I64)?,
        kind: Kind::I64,
        body,
    })
}

// Each function but the first calls the one before it.
fn deepest(alloc: Global) -> Result<Codes, AllocError> {
    let mut codes = Codes::new(alloc);
    for at in 0..16 {
        codes = with_function(alloc, codes, deep_function(alloc, at)?)?;
    }
    Ok(codes)
}

#[test]
fn the_deepest_functions_end_in_threads(rt: HostRuntime) -> Result<(), Fail> {
    let codes = deepest(rt.alloc())?;
    let shared = &codes;
    let (one, other) = join(
        &rt,
        move || outcome(shared, 15, &[Value::I64(0)]),
        move || outcome(shared, 15, &[Value::I64(1)]),
    );
    assert_eq!(rt; one, Some(Ok(Value::I64(1))));
    assert_eq!(rt; other, Some(Ok(Value::I64(0))));
    Ok(())
}
