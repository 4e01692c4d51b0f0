//! From expressions to code.

ghost use Rattle.std.specs.Prelude.{◌≡◌, ℕ, ◌+◌, ◌<◌, ◌^◌, false, true, IfOk, IfSome, map, nat_abs, option_map, sum};
ghost use Rattle.std.specs.Option.{option_copied};
ghost use Rattle.pts_rules.specs.Kinds as spec;
ghost use Rattle.pts_rules.specs.Known as known;
ghost use Rattle.pts_types.specs.declared.value.Value.TheVariants as values;
ghost use Rattle.pts_code.specs.declared.code.Code.TheVariants as codes;
ghost use Rattle.pts_code.specs.Codes as given;
ghost use Rattle.pts_code.specs.Compiling.{AreArguments, AreSteps, AreTruths, IsCode, at_spot, spot_of, step_at};
ghost use Rattle.pts_code.specs.Outcomes.{from_left};
ghost use Rattle.pts_code.specs.Values.{numbers};

use crate::code::{Code, Step};
use crate::numbers::numbers_in;
use crate::values::{literal_value, number_value, opposite, throw_code};
use pts_rules::{Meaning, Scope, Signature};
use pts_tree::{ChainPart, Expr, Name};
use pts_types::{Kind, ScalarOp, Value};
use sqlite_items::{Boxed, Items};
use std::alloc::{AllocError, Global};

/// Where a local value stands: at a place of the frame, or noted at a place.
#[derive(Clone, Copy, Debug, PartialEq, Eq)]
pub enum Spot {
    Local(usize),
    Note(usize),
}

/// The names that an expression may use, and where each of the local values among them stands, in the order of their
/// numbers. Those that have no spot of their own stand in the frame at their numbers. What `compile` promises is said of
/// scopes without constants and views, whose functions `enter_functions` has entered, and whose arrays have length 0 there.
#[derive(Clone, Copy)]
pub struct Names<'a> {
    pub scope: &'a Scope,
    pub spots: &'a [Spot],
}

/// The two sides of a comparison, and what compares them.
#[derive(Clone, Copy)]
pub struct Comparison<'a> {
    pub op: ScalarOp,
    pub left: &'a Expr,
    pub right: &'a Expr,
}

/// A test and the two branches behind it: the first where it is true.
#[derive(Clone, Copy)]
pub struct Choice<'a> {
    pub test: &'a Expr,
    pub first: &'a Expr,
    pub second: &'a Expr,
}

// The number of a literal number.
#[tactic(auto, using(pts_rules::proofs::Typings::typing_by_form))]
fn literal(scope: &Scope, expr: &Expr) -> Option<i128>
    ensures value { result ≡ (spec.typing false scope.now expr.now).literal }
    ensures small { IfSome result (λ z. nat_abs z < 2 ^ 64) }
{
    match expr {
        Expr::Number(number) => Some(i128::from(*number)),
        Expr::Name(name) => scope.constant(name),
        Expr::True
        | Expr::False
        | Expr::Call(..)
        | Expr::Element(..)
        | Expr::Convert(..)
        | Expr::Throw(_) => None,
        Expr::Paren(_) | Expr::Minus(_) | Expr::Not(_) | Expr::Chain(..) | Expr::Compare(..) =>
            None,
        Expr::All(_) | Expr::Any(_) | Expr::If(..) => None,
    }
}

fn local_kind(scope: &Scope, name: &Name) -> Option<Kind>
    ensures { result ≡ (spec.name_typing (known.meaning_of scope.now name.now)).own }
{
    match scope.meaning(name) {
        Some(Meaning::Value(kind)) => Some(*kind),
        _ => None,
    }
}

fn signature_of<'a>(scope: &'a Scope, name: &Name) -> Option<&'a Signature>
    ensures { option_copied result ≡ known.function_of scope.now name.now }
{
    match scope.meaning(name) {
        Some(Meaning::Function(signature)) => Some(signature),
        _ => None,
    }
}

fn function_kind(scope: &Scope, name: &Name) -> Option<Kind>
    ensures { result ≡ option_map (λ f. f.kind) (known.function_of scope.now name.now) }
{
    match signature_of(scope, name) {
        Some(signature) => Some(signature.kind),
        None => None,
    }
}

fn element_kind(scope: &Scope, name: &Name) -> Option<Kind>
    ensures { result ≡ known.kind_of_array scope.now name.now }
{
    match scope.meaning(name) {
        Some(Meaning::Array(kind, _)) => Some(*kind),
        _ => None,
    }
}

// The kind of the first operand that is not bare.
#[cycle(own_kind)]
fn first_kind(scope: &Scope, parts: &[ChainPart]) -> Option<Kind>
    ensures { result ≡ spec.first_kind (map (λ y. spec.typing false scope.now y.operand) parts.now) }
{
    for part in parts {
        if let Some(kind) = own_kind(scope, &part.operand) {
            return Some(kind);
        }
    }
    None
}

// The kind of an expression that is not bare. It is asked for conversions and comparisons, and ends at those inside, so
// that no node is looked at twice.
#[cycle(own_kind)]
#[tactic(auto, using(pts_rules::proofs::Typings::typing_by_form))]
fn own_kind(scope: &Scope, expr: &Expr) -> Option<Kind>
    ensures { result ≡ (spec.typing false scope.now expr.now).own }
{
    match expr {
        Expr::Number(_) | Expr::Throw(_) => None,
        Expr::Name(name) => local_kind(scope, name),
        Expr::Call(name, _) => function_kind(scope, name),
        Expr::Element(name, _) => element_kind(scope, name),
        Expr::Convert(to, _) => Some(*to),
        Expr::Paren(inner) => own_kind(scope, inner.get()),
        Expr::Minus(operand) => minus_kind(scope, operand.get()),
        Expr::Chain(first, parts) => {
            let kind = own_kind(scope, first.get());
            kind.or(first_kind(scope, parts.as_slice()))
        }
        Expr::If(_, then, other) => own_kind(scope, then.get()).or(own_kind(scope, other.get())),
        Expr::True | Expr::False | Expr::Not(_) | Expr::Compare(..) | Expr::All(_) | Expr::Any(_) =>
            Some(Kind::Bool),
    }
}

fn minus_kind(scope: &Scope, operand: &Expr) -> Option<Kind>
    ensures { result ≡ (spec.minus_typing (spec.typing false scope.now operand.now) (spec.typing false scope.now operand.now).literal).own }
{
    match literal(scope, operand) {
        Some(_) => None,
        None => Some(Kind::I64),
    }
}

// Where an expression breaks a rule.
fn no_code() -> Code
    ensures { result ≡ codes.Value (values.U64 0) }
{
    Code::Value(Value::U64(0))
}

fn spot_at(spots: &[Spot], number: usize) -> Spot
    ensures { result ≡ spot_of spots.now number }
{
    match spots.get(number) {
        Some(spot) => *spot,
        None => Spot::Local(number),
    }
}

#[tactic(auto, using(crate::proofs::Given::gives_by_form))]
fn spot_code(spot: Spot) -> Code
    ensures { (sight : given.Sight) → given.gives sight result ≡ at_spot sight spot }
{
    match spot {
        Spot::Local(place) => Code::Local(place),
        Spot::Note(place) => Code::Note(place),
    }
}

fn compile_name(names: &Names<'_>, name: &Name) -> Code
    ensures { (kind : Kind) (first : ℕ) → IsCode names.now.scope.now names.now.spots.now kind first (Expr.Name name.now) result }
{
    match names.scope.value_number(name) {
        Some(number) => spot_code(spot_at(names.spots, number)),
        None => no_code(),
    }
}

// An element stands directly behind those of its index.
fn compile_element(names: &Names<'_>, first: usize, name: &Name, index: &Expr) -> Code
    requires { first + numbers true index.now < 2 ^ 64 }
    ensures { (kind : Kind) → IsCode names.now.scope.now names.now.spots.now kind first (Expr.Element name.now index.now) result }
{
    match element_kind(names.scope, name) {
        Some(_) => Code::Note(first + numbers_in(index, true)),
        None => no_code(),
    }
}

#[cycle(compile)]
fn compile_arguments(
    alloc: Global,
    names: &Names<'_>,
    first: usize,
    kinds: &[Kind],
    arguments: &[Expr],
) -> Result<Items<Code>, AllocError>
    requires { first + sum (map (numbers true) arguments.now) < 2 ^ 64 }
    ensures { IfOk result (λ codes. AreArguments names.now.scope.now names.now.spots.now kinds.now first arguments.now codes) }
{
    let mut codes = Items::new(alloc);
    let mut next = first;
    for at in 0..kinds.len().min(arguments.len()) {
        let argument = &arguments[at];
        codes.push(compile(alloc, names, kinds[at], next, argument)?)?;
        next += numbers_in(argument, true);
    }
    Ok(codes)
}

#[cycle(compile)]
fn compile_call(
    alloc: Global,
    names: &Names<'_>,
    first: usize,
    name: &Name,
    arguments: &[Expr],
) -> Result<Code, AllocError>
    requires { first + sum (map (numbers true) arguments.now) < 2 ^ 64 }
    ensures { IfOk result (λ code. (kind : Kind) → IsCode names.now.scope.now names.now.spots.now kind first (Expr.Call name.now arguments.now) code) }
{
    let Some(signature) = signature_of(names.scope, name) else {
        return Ok(no_code());
    };
    let Some(number) = names.scope.function_number(name) else {
        return Ok(no_code());
    };
    let codes = compile_arguments(alloc, names, first, signature.params.as_slice(), arguments)?;
    Ok(Code::Call(number, codes))
}

#[cycle(compile)]
fn compile_boxed(
    alloc: Global,
    names: &Names<'_>,
    kind: Kind,
    first: usize,
    expr: &Expr,
) -> Result<Boxed<Code>, AllocError>
    requires { first + numbers true expr.now < 2 ^ 64 }
    ensures { IfOk result (λ code. IsCode names.now.scope.now names.now.spots.now kind first expr.now code) }
{
    Boxed::new(alloc, compile(alloc, names, kind, first, expr)?)
}

#[cycle(compile)]
fn compile_minus(
    alloc: Global,
    names: &Names<'_>,
    kind: Kind,
    first: usize,
    operand: &Expr,
) -> Result<Code, AllocError>
    requires { first + numbers true operand.now < 2 ^ 64 }
    ensures { IfOk result (λ code. IsCode names.now.scope.now names.now.spots.now kind first (Expr.Minus operand.now) code) }
{
    match literal(names.scope, operand) {
        Some(number) => Ok(Code::Value(number_value(kind, opposite(number)))),
        None => Ok(Code::Negate(compile_boxed(alloc, names, Kind::I64, first, operand)?)),
    }
}

#[cycle(compile)]
fn compile_parts(
    alloc: Global,
    names: &Names<'_>,
    kind: Kind,
    first: usize,
    parts: &[ChainPart],
) -> Result<Items<Step>, AllocError>
    requires { first + sum (map (λ part. numbers true part.operand) parts.now) < 2 ^ 64 }
    ensures { IfOk result (λ steps. AreSteps names.now.scope.now names.now.spots.now kind first parts.now steps) }
{
    let mut steps = Items::new(alloc);
    let mut next = first;
    for part in parts {
        let operand = compile(alloc, names, kind, next, &part.operand)?;
        steps.push(Step {
            op: part.op,
            operand,
        })?;
        next += numbers_in(&part.operand, true);
    }
    Ok(steps)
}

// Steps behind code. Behind a chain they go on in it, so that brackets on the left cost no call when it is evaluated.
fn chained(alloc: Global, code: Code, steps: Items<Step>) -> Result<Code, AllocError>
    ensures { IfOk result (λ whole. (sight : given.Sight) → given.gives sight whole ≡ from_left (given.gives sight code) (map (step_at sight) steps)) }
{
    match code {
        Code::Chain(first, mut before) => {
            before.append(steps)?;
            Ok(Code::Chain(first, before))
        }
        code => Ok(Code::Chain(Boxed::new(alloc, code)?, steps)),
    }
}

#[cycle(compile)]
fn compile_compare(
    alloc: Global,
    names: &Names<'_>,
    first: usize,
    sides: &Comparison<'_>,
) -> Result<Code, AllocError>
    requires { first + numbers true sides.now.left.now + numbers true sides.now.right.now < 2 ^ 64 }
    ensures { IfOk result (λ code. (kind : Kind) → IsCode names.now.scope.now names.now.spots.now kind first (Expr.Compare sides.now.op sides.now.left.now sides.now.right.now) code) }
{
    let kind = own_kind(names.scope, sides.left)
        .or(own_kind(names.scope, sides.right))
        .unwrap_or(Kind::U64);
    let left = compile(alloc, names, kind, first, sides.left)?;
    let next = first + numbers_in(sides.left, true);
    let operand = compile(alloc, names, kind, next, sides.right)?;
    let mut steps = Items::new(alloc);
    steps.push(Step {
        op: sides.op,
        operand,
    })?;
    chained(alloc, left, steps)
}

#[cycle(compile)]
fn compile_each(
    alloc: Global,
    names: &Names<'_>,
    first: usize,
    exprs: &[Expr],
) -> Result<Items<Code>, AllocError>
    requires { first + sum (map (numbers true) exprs.now) < 2 ^ 64 }
    ensures { IfOk result (λ codes. AreTruths names.now.scope.now names.now.spots.now first exprs.now codes) }
{
    let mut codes = Items::new(alloc);
    let mut next = first;
    for expr in exprs {
        codes.push(compile(alloc, names, Kind::Bool, next, expr)?)?;
        next += numbers_in(expr, true);
    }
    Ok(codes)
}

#[cycle(compile)]
fn compile_if(
    alloc: Global,
    names: &Names<'_>,
    kind: Kind,
    first: usize,
    choice: &Choice<'_>,
) -> Result<Code, AllocError>
    requires { first + numbers true choice.now.test.now + numbers true choice.now.first.now + numbers true choice.now.second.now < 2 ^ 64 }
    ensures { IfOk result (λ code. IsCode names.now.scope.now names.now.spots.now kind first (Expr.If choice.now.test.now choice.now.first.now choice.now.second.now) code) }
{
    let test = compile_boxed(alloc, names, Kind::Bool, first, choice.test)?;
    let behind = first + numbers_in(choice.test, true);
    let yes = compile_boxed(alloc, names, kind, behind, choice.first)?;
    let last = behind + numbers_in(choice.first, true);
    Ok(Code::If(
        test,
        yes,
        compile_boxed(alloc, names, kind, last, choice.second)?,
    ))
}

/// The code of an expression at the kind that its place asks. The first of its elements is noted at place `first`, the others
/// in text order behind it, an element directly behind those of its index.
#[cycle(compile)]
pub fn compile(
    alloc: Global,
    names: &Names<'_>,
    kind: Kind,
    first: usize,
    expr: &Expr,
) -> Result<Code, AllocError>
    requires { first + numbers true expr.now < 2 ^ 64 }
    ensures { IfOk result (λ code. IsCode names.now.scope.now names.now.spots.now kind first expr.now code) }
{
    match expr {
        Expr::Number(number) => Ok(Code::Value(literal_value(kind, *number))),
        Expr::True => Ok(Code::Value(Value::Bool(true))),
        Expr::False => Ok(Code::Value(Value::Bool(false))),
        Expr::Name(name) => Ok(compile_name(names, name)),
        Expr::Call(name, arguments) => compile_call(
            alloc,
            names,
            first,
            name,
            arguments.as_slice(),
        ),
        Expr::Element(name, index) => Ok(compile_element(names, first, name, index.get())),
        Expr::Convert(to, operand) => {
            let from = own_kind(names.scope, operand.get()).unwrap_or(*to);
            Ok(Code::Convert(
                *to,
                compile_boxed(alloc, names, from, first, operand.get())?,
            ))
        }
        Expr::Throw(code) => Ok(Code::Throw(throw_code(*code))),
        Expr::Paren(inner) => compile(alloc, names, kind, first, inner.get()),
        Expr::Minus(operand) => compile_minus(alloc, names, kind, first, operand.get()),
        Expr::Not(operand) => Ok(Code::Not(compile_boxed(
            alloc,
            names,
            Kind::Bool,
            first,
            operand.get(),
        )?)),
        Expr::Chain(operand, parts) => {
            let code = compile(alloc, names, kind, first, operand.get())?;
            let next = first + numbers_in(operand.get(), true);
            let steps = compile_parts(alloc, names, kind, next, parts.as_slice())?;
            chained(alloc, code, steps)
        }
        Expr::Compare(op, left, right) => {
            let sides = Comparison {
                op: *op,
                left: left.get(),
                right: right.get(),
            };
            compile_compare(alloc, names, first, &sides)
        }
        Expr::All(exprs) => Ok(Code::All(compile_each(alloc, names, first, exprs.as_slice())?)),
        Expr::Any(exprs) => Ok(Code::Any(compile_each(alloc, names, first, exprs.as_slice())?)),
        Expr::If(test, then, other) => {
            let choice = Choice {
                test: test.get(),
                first: then.get(),
                second: other.get(),
            };
            compile_if(alloc, names, kind, first, &choice)
        }
    }
}
