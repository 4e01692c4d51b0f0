//! The values of expressions, over their trees.

ghost use Rattle.std.specs.Prelude.{◌≡◌, ℕ, ◌+◌, ◌<◌, ◌≤◌, ◌^◌, [], ◌∷◌, false, length, map, option_map, pos, sum, unwrap_or, MatchResult, List, Ok, Err};
ghost use Rattle.arrayvec.specs.ArrayVec.{array_vec_len};
ghost use Rattle.pts_types.specs.Arithmetic as arithmetic;
ghost use Rattle.pts_types.specs.declared.value.Kind.{Kind};
ghost use Rattle.pts_types.specs.declared.value.Kind.TheVariants as kinds;
ghost use Rattle.pts_tree.specs.declared.expr.Expr.TheVariants as exprs;
ghost use Rattle.pts_code.specs.Functions.{environment_of, kinds_of};
ghost use Rattle.pts_code.specs.Outcomes as outcomes;
ghost use Rattle.pts_code.specs.Values as valued;
ghost use Rattle.pts_code.specs.Values.{numbers};
ghost use Rattle.pts_eval.specs.Expressions as spec;

use arrayvec::ArrayVec;
use pts_code::{
    Choice, Comparison, FunctionInfo, inverted, is_true, literal_value, negated, number_value,
    numbers_in, operated, opposite, throw_code,
};
use pts_program::{ArrayInfo, Program};
use pts_tree::{ChainPart, Expr, Name, Param};
use pts_types::{Kind, Thrown, Value, convert};

/// A local name and its value.
#[derive(Debug, Drop)]
pub struct Local {
    pub name: Name,
    pub value: Value,
}

// What the names of an expression stand for, and what its elements gave when they were read: those that stand in no index,
// in text order.
#[derive(Clone, Copy)]
pub(crate) struct Names<'a> {
    pub(crate) program: &'a Program,
    pub(crate) locals: &'a [Local],
    pub(crate) reads: &'a [Result<Value, Thrown>],
}

// What a name stands for: a function by its number.
#[derive(Clone, Copy)]
pub(crate) enum Found {
    Local(Value),
    Array(Kind),
    Function(usize),
    Nothing,
}

fn find_local(locals: &[Local], name: &Name) -> Option<Value>
    ensures { option_map spec.local_bound result ≡ valued.bound_to (spec.local_names locals.now) name.now }
{
    for local in locals {
        if name.as_str() == local.name.as_str() {
            return Some(local.value);
        }
    }
    None
}

fn find_array(arrays: &[ArrayInfo], name: &Name) -> Option<Kind>
    ensures { option_map (λ kind. valued.Array kind) result ≡ valued.bound_to (spec.array_names arrays.now) name.now }
{
    for array in arrays {
        if name.as_str() == array.name.as_str() {
            return Some(array.kind);
        }
    }
    None
}

// The latest function of a name.
fn find_function(functions: &[FunctionInfo], name: &Name) -> Found
    ensures { spec.bound_of functions.now result ≡ valued.bound_to (environment_of functions.now) name.now }
{
    let mut latest = Found::Nothing;
    for (number, function) in functions.iter().enumerate() {
        if name.as_str() == function.name.as_str() {
            latest = Found::Function(number);
        }
    }
    latest
}

fn find(names: &Names<'_>, name: &Name) -> Found
    ensures { spec.bound_of names.now.program.now.functions result ≡ valued.bound_to (spec.names_of names.now) name.now }
{
    if let Some(value) = find_local(names.locals, name) {
        return Found::Local(value);
    }
    match find_array(names.program.arrays(), name) {
        Some(kind) => Found::Array(kind),
        None => find_function(names.program.functions(), name),
    }
}

// ---- kinds

fn kind_of(value: Value) -> Kind
    ensures { result ≡ arithmetic.kind_of value }
{
    match value {
        Value::I64(_) => Kind::I64,
        Value::U64(_) => Kind::U64,
        Value::Bool(_) => Kind::Bool,
    }
}

fn local_kind(names: &Names<'_>, name: &Name) -> Option<Kind>
    ensures { result ≡ (valued.name_valuation (valued.bound_to (spec.names_of names.now) name.now)).own }
{
    match find(names, name) {
        Found::Local(value) => Some(kind_of(value)),
        Found::Array(_) | Found::Function(_) | Found::Nothing => None,
    }
}

fn array_kind(names: &Names<'_>, name: &Name) -> Option<Kind>
    ensures { (reads : valued.Reads) (x : valued.Valuation) → result ≡ (valued.element_valuation reads name.now (valued.bound_to (spec.names_of names.now) name.now) x).own }
{
    match find(names, name) {
        Found::Array(kind) => Some(kind),
        Found::Local(_) | Found::Function(_) | Found::Nothing => None,
    }
}

fn function_kind(names: &Names<'_>, name: &Name) -> Option<Kind>
    ensures { (xs : List valued.Valuation) → result ≡ (valued.call_valuation (valued.bound_to (spec.names_of names.now) name.now) xs).own }
{
    match find(names, name) {
        Found::Function(number) => kind_at(names.program.functions(), number),
        Found::Local(_) | Found::Array(_) | Found::Nothing => None,
    }
}

fn kind_at(functions: &[FunctionInfo], number: usize) -> Option<Kind>
    ensures { (xs : List valued.Valuation) → result ≡ (valued.call_valuation (spec.function_bound functions.now number) xs).own }
{
    match functions.get(number) {
        Some(function) => Some(function.kind),
        None => None,
    }
}

// The number of a literal number.
#[tactic(auto, using(crate::proofs::Literals::literal_by_form))]
fn literal(names: &Names<'_>, expr: &Expr) -> Option<u64>
    ensures { option_map (λ n. pos n) result ≡ (spec.valued names.now expr.now).literal }
{
    match expr {
        Expr::Number(number) => Some(*number),
        Expr::True
        | Expr::False
        | Expr::Name(_)
        | Expr::Call(..)
        | Expr::Element(..)
        | Expr::Convert(..)
        | Expr::Throw(_) => None,
        Expr::Paren(_) | Expr::Minus(_) | Expr::Not(_) | Expr::Chain(..) | Expr::Compare(..) =>
            None,
        Expr::All(_) | Expr::Any(_) | Expr::If(..) => None,
    }
}

// The kind of the first operand that is not bare.
#[cycle(own_kind)]
fn first_kind(names: &Names<'_>, parts: &[ChainPart]) -> Option<Kind>
    ensures { result ≡ valued.first_kind (valued.operands (map (spec.part_of names.now) parts.now)) }
{
    for part in parts {
        if let Some(kind) = own_kind(names, &part.operand) {
            return Some(kind);
        }
    }
    None
}

#[tactic(auto, using(pts_code::proofs::Valuations::valued_by_form))]
fn minus_kind(names: &Names<'_>, operand: &Expr) -> Option<Kind>
    ensures { result ≡ (spec.valued names.now (exprs.Minus operand.now)).own }
{
    match literal(names, operand) {
        Some(_) => None,
        None => Some(Kind::I64),
    }
}

// The kind of an expression that is not bare.
#[cycle(own_kind)]
#[tactic(auto, using(pts_code::proofs::Valuations::valued_by_form))]
fn own_kind(names: &Names<'_>, expr: &Expr) -> Option<Kind>
    ensures { result ≡ (spec.valued names.now expr.now).own }
{
    match expr {
        Expr::Number(_) | Expr::Throw(_) => None,
        Expr::Name(name) => local_kind(names, name),
        Expr::Call(name, _) => function_kind(names, name),
        Expr::Element(name, _) => array_kind(names, name),
        Expr::Convert(to, _) => Some(*to),
        Expr::Paren(inner) => own_kind(names, inner.get()),
        Expr::Minus(operand) => minus_kind(names, operand.get()),
        Expr::Chain(first, parts) => {
            let kind = own_kind(names, first.get());
            kind.or(first_kind(names, parts.as_slice()))
        }
        Expr::If(_, then, other) => own_kind(names, then.get()).or(own_kind(names, other.get())),
        Expr::True | Expr::False | Expr::Not(_) | Expr::Compare(..) | Expr::All(_) | Expr::Any(_) =>
            Some(Kind::Bool),
    }
}

// ---- values

fn taken(reads: &[Result<Value, Thrown>], number: usize) -> Result<Value, Thrown>
    ensures { result ≡ (valued.listed reads.now).outcome number }
{
    match reads.get(number) {
        Some(outcome) => *outcome,
        None => Ok(Value::U64(0)),
    }
}

fn eval_name(names: &Names<'_>, name: &Name) -> Result<Value, Thrown>
    ensures { (kind : Kind) (n : ℕ) → result ≡ (valued.name_valuation (valued.bound_to (spec.names_of names.now) name.now)).value kind n }
{
    match find(names, name) {
        Found::Local(value) => Ok(value),
        Found::Array(_) | Found::Function(_) | Found::Nothing => Ok(Value::U64(0)),
    }
}

fn eval_element(names: &Names<'_>, first: usize, name: &Name) -> Result<Value, Thrown>
    ensures { (kind : Kind) (x : valued.Valuation) → result ≡ (valued.element_valuation (valued.listed names.now.reads.now) name.now (valued.bound_to (spec.names_of names.now) name.now) x).value kind first }
{
    match find(names, name) {
        Found::Array(_) => taken(names.reads, first),
        Found::Local(_) | Found::Function(_) | Found::Nothing => Ok(Value::U64(0)),
    }
}

#[cycle(eval)]
fn push_arguments(
    names: &Names<'_>,
    first: usize,
    params: &[Param],
    arguments: &[Expr],
    values: &mut ArrayVec<Value, 8>,
) -> Result<(), Thrown>
    requires few { length params.now ≤ 8 }
    requires none { values.old.items ≡ [] }
    requires room { array_vec_len values.old ≡ 0 }
    requires read { first + sum (map (numbers false) arguments.now) < 2 ^ 64 }
    ensures { MatchResult result
        (λ u. outcomes.in_order (valued.at_kinds (kinds_of params.now) (map (spec.valued names.now) arguments.now) first) ≡ Ok values.new.items)
        (λ e. outcomes.in_order (valued.at_kinds (kinds_of params.now) (map (spec.valued names.now) arguments.now) first) ≡ Err e) }
{
    let mut next = first;
    for at in 0..params.len().min(arguments.len()) {
        let argument = &arguments[at];
        values.push(eval(names, params[at].kind, next, argument)?);
        next += numbers_in(argument, false);
    }
    Ok(())
}

#[cycle(eval)]
fn eval_call(
    names: &Names<'_>,
    first: usize,
    name: &Name,
    arguments: &[Expr],
) -> Result<Value, Thrown>
    requires { first + sum (map (numbers false) arguments.now) < 2 ^ 64 }
    ensures { (kind : Kind) → result ≡ (valued.call_valuation (valued.bound_to (spec.names_of names.now) name.now) (map (spec.valued names.now) arguments.now)).value kind first }
{
    let Found::Function(number) = find(names, name) else {
        return Ok(Value::U64(0));
    };
    let codes = names.program.codes();
    if number >= codes.functions().len() {
        return Ok(Value::U64(0));
    }
    let params = codes.function(number).params.as_slice();
    let mut values = ArrayVec::new();
    push_arguments(names, first, params, arguments, &mut values)?;
    codes.call(number, values.as_slice())
}

#[cycle(eval)]
fn eval_minus(names: &Names<'_>, kind: Kind, first: usize, operand: &Expr) -> Result<Value, Thrown>
    requires { first + numbers false operand.now < 2 ^ 64 }
    ensures { result ≡ (valued.minus_valuation (spec.valued names.now operand.now) (spec.valued names.now operand.now).literal).value kind first }
{
    match literal(names, operand) {
        Some(number) => Ok(number_value(kind, opposite(i128::from(number)))),
        None => negated(eval(names, Kind::I64, first, operand)?),
    }
}

#[cycle(eval)]
fn eval_convert(names: &Names<'_>, first: usize, to: Kind, operand: &Expr) -> Result<Value, Thrown>
    requires { first + numbers false operand.now < 2 ^ 64 }
    ensures { result ≡ outcomes.and_then (spec.given names.now (unwrap_or (spec.valued names.now operand.now).own to) first operand.now) (arithmetic.converted to) }
{
    let from = own_kind(names, operand).unwrap_or(to);
    convert(to, eval(names, from, first, operand)?)
}

#[cycle(eval)]
fn eval_not(names: &Names<'_>, first: usize, operand: &Expr) -> Result<Value, Thrown>
    requires { first + numbers false operand.now < 2 ^ 64 }
    ensures { result ≡ outcomes.and_then (spec.given names.now kinds.Bool first operand.now) (λ value. Ok (outcomes.inverted value)) }
{
    Ok(inverted(eval(names, Kind::Bool, first, operand)?))
}

#[cycle(eval)]
fn eval_chain(
    names: &Names<'_>,
    kind: Kind,
    first: usize,
    operand: &Expr,
    parts: &[ChainPart],
) -> Result<Value, Thrown>
    requires { first + numbers false operand.now + sum (map (λ part. numbers false part.operand) parts.now) < 2 ^ 64 }
    ensures { result ≡ outcomes.from_left (spec.given names.now kind first operand.now) (valued.operations kind (map (spec.part_of names.now) parts.now) (first + numbers false operand.now)) }
{
    let mut value = eval(names, kind, first, operand)?;
    let mut next = first + numbers_in(operand, false);
    for part in parts {
        let right = eval(names, kind, next, &part.operand)?;
        value = operated(part.op, value, right)?;
        next += numbers_in(&part.operand, false);
    }
    Ok(value)
}

#[cycle(eval)]
fn eval_compare(names: &Names<'_>, first: usize, sides: &Comparison<'_>) -> Result<Value, Thrown>
    requires { first + numbers false sides.now.left.now + numbers false sides.now.right.now < 2 ^ 64 }
    ensures { result ≡ spec.compared names.now first sides.now.op sides.now.left.now sides.now.right.now }
{
    let kind = own_kind(names, sides.left)
        .or(own_kind(names, sides.right))
        .unwrap_or(Kind::U64);
    let left = eval(names, kind, first, sides.left)?;
    let next = first + numbers_in(sides.left, false);
    let right = eval(names, kind, next, sides.right)?;
    operated(sides.op, left, right)
}

#[cycle(eval)]
fn eval_all(names: &Names<'_>, first: usize, members: &[Expr]) -> Result<Value, Thrown>
    requires { first + sum (map (numbers false) members.now) < 2 ^ 64 }
    ensures { result ≡ outcomes.all_of (valued.truths (map (spec.valued names.now) members.now) first) }
{
    let mut next = first;
    for member in members {
        if !is_true(eval(names, Kind::Bool, next, member)?) {
            return Ok(Value::Bool(false));
        }
        next += numbers_in(member, false);
    }
    Ok(Value::Bool(true))
}

#[cycle(eval)]
fn eval_any(names: &Names<'_>, first: usize, members: &[Expr]) -> Result<Value, Thrown>
    requires { first + sum (map (numbers false) members.now) < 2 ^ 64 }
    ensures { result ≡ outcomes.any_of (valued.truths (map (spec.valued names.now) members.now) first) }
{
    let mut next = first;
    for member in members {
        if is_true(eval(names, Kind::Bool, next, member)?) {
            return Ok(Value::Bool(true));
        }
        next += numbers_in(member, false);
    }
    Ok(Value::Bool(false))
}

#[cycle(eval)]
fn eval_if(
    names: &Names<'_>,
    kind: Kind,
    first: usize,
    choice: &Choice<'_>,
) -> Result<Value, Thrown>
    requires { first + numbers false choice.now.test.now + numbers false choice.now.first.now + numbers false choice.now.second.now < 2 ^ 64 }
    ensures { result ≡ spec.chosen names.now kind first choice.now.test.now choice.now.first.now choice.now.second.now }
{
    let test = is_true(eval(names, Kind::Bool, first, choice.test)?);
    let behind = first + numbers_in(choice.test, false);
    if test {
        return eval(names, kind, behind, choice.first);
    }
    eval(
        names,
        kind,
        behind + numbers_in(choice.first, false),
        choice.second,
    )
}

// The value of an expression, where the first of its elements has this number.
#[cycle(eval)]
#[tactic(auto, using(crate::proofs::Given::given_by_form))]
fn eval(names: &Names<'_>, kind: Kind, first: usize, expr: &Expr) -> Result<Value, Thrown>
    requires { first + numbers false expr.now < 2 ^ 64 }
    ensures { result ≡ spec.given names.now kind first expr.now }
{
    match expr {
        Expr::Number(number) => Ok(literal_value(kind, *number)),
        Expr::True => Ok(Value::Bool(true)),
        Expr::False => Ok(Value::Bool(false)),
        Expr::Name(name) => eval_name(names, name),
        Expr::Call(name, arguments) => eval_call(names, first, name, arguments.as_slice()),
        Expr::Element(name, _) => eval_element(names, first, name),
        Expr::Convert(to, operand) => eval_convert(names, first, *to, operand.get()),
        Expr::Throw(code) => Err(Thrown::Code(throw_code(*code))),
        Expr::Paren(inner) => eval(names, kind, first, inner.get()),
        Expr::Minus(operand) => eval_minus(names, kind, first, operand.get()),
        Expr::Not(operand) => eval_not(names, first, operand.get()),
        Expr::Chain(start, parts) => eval_chain(names, kind, first, start.get(), parts.as_slice()),
        Expr::Compare(op, left, right) => {
            let sides = Comparison {
                op: *op,
                left: left.get(),
                right: right.get(),
            };
            eval_compare(names, first, &sides)
        }
        Expr::All(members) => eval_all(names, first, members.as_slice()),
        Expr::Any(members) => eval_any(names, first, members.as_slice()),
        Expr::If(test, then, other) => {
            let choice = Choice {
                test: test.get(),
                first: then.get(),
                second: other.get(),
            };
            eval_if(names, kind, first, &choice)
        }
    }
}

/// The value of an expression of a program at its kind, or what it throws first. `locals` holds the values of its local names;
/// `reads` what its elements gave when they were read, those that stand in no index, in text order. A fault among these is
/// thrown where its element is taken, and nowhere else. It takes no memory.
///
/// It is meant for expressions whose names are resolved, at their kinds, with a value of its kind for each local name, and
/// with entries of the kinds of their elements. Of this only that there are enough entries is asked for: the value is that of
/// the definition in every other case as well. Where all of it holds, the value is of the kind.
pub fn eval_expr(
    program: &Program,
    kind: Kind,
    expr: &Expr,
    locals: &[Local],
    reads: &[Result<Value, Thrown>],
) -> Result<Value, Thrown>
    requires { numbers false expr.now ≤ length reads.now }
    ensures value { result ≡ valued.value_of (spec.environment program.now locals.now) (valued.listed reads.now) kind 0 expr.now }
    ensures kind { spec.IsEvaluable program.now locals.now reads.now kind expr.now → arithmetic.GivesKind kind result }
{
    let names = Names {
        program,
        locals,
        reads,
    };
    eval(&names, kind, 0, expr)
}
