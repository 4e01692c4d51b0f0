//! Reading expressions.

ghost use Rattle.std.specs.Prelude.{◌≡◌, IfOk};
ghost use Rattle.pts_parse.specs.Reading.{ahead, Gives};
ghost use Rattle.pts_parse.specs.ExprReading as spec;

use crate::reader::{Read, Stop, ahead, expect, listed, name, number, open_bracket, past, sees};
use crate::sums::kind;
use pts_tree::{ChainPart, Expr, Mark, Name, Sign, SignKind};
use pts_types::ScalarOp;
use sqlite_items::{Boxed, Items};
use std::alloc::{AllocError, Global};

/// A level of chains: `* / %`, `+ -` or `& | ^`.
#[derive(Clone, Copy, Debug, PartialEq, Eq)]
pub enum Level {
    Multiplying,
    Adding,
    Bitwise,
}

/// What joins expressions of kind `bool`: `&&` or `||`.
#[derive(Clone, Copy, Debug, PartialEq, Eq)]
pub enum Connective {
    All,
    Any,
}

/// An expression, where so many more brackets may be open.
#[cycle(expressions)]
#[tactic(auto, using(crate::proofs::Rooms::expr_is), unfolding(crate::specs::ExprReading::expr_of))]
pub fn expr(alloc: Global, room: usize, signs: &[Sign]) -> Read<Expr>
    ensures { Gives (λ x. (x.0, x.1.now)) result (spec.expr room signs.now) }
{
    if sees(Mark::If, signs) {
        if_else(alloc, room, signs)
    } else {
        members(alloc, Connective::Any, room, signs)
    }
}

#[cycle(expressions)]
#[tactic(auto, unfolding(crate::specs::Reading::and_then, crate::specs::ExprReading::if_else))]
fn if_else(alloc: Global, room: usize, signs: &[Sign]) -> Read<Expr>
    ensures { Gives (λ x. (x.0, x.1.now)) result (spec.if_else room (spec.inner room) signs.now) }
{
    let (test, rest) = branch(alloc, Mark::If, room, signs)?;
    let (first, rest) = branch(alloc, Mark::Then, room, rest)?;
    let (second, rest) = branch(alloc, Mark::Else, room, rest)?;
    Ok((Expr::If(test, first, second), rest))
}

// A word and an expression without `if`.
#[cycle(expressions)]
#[tactic(auto, unfolding(crate::specs::Reading::and_then, crate::specs::ExprReading::branch))]
fn branch(alloc: Global, word: Mark, room: usize, signs: &[Sign]) -> Read<Boxed<Expr>>
    ensures { Gives (λ x. (x.0, x.1.now)) result (spec.branch word room (spec.inner room) signs.now) }
{
    let rest = expect(word, signs)?;
    let (branch, rest) = members(alloc, Connective::Any, room, rest)?;
    Ok((Boxed::new(alloc, branch)?, rest))
}

#[cycle(expressions)]
#[tactic(auto, unfolding(crate::specs::Reading::and_then))]
fn member(alloc: Global, which: Connective, room: usize, signs: &[Sign]) -> Read<Expr>
    ensures { Gives (λ x. (x.0, x.1.now)) result (spec.member which room (spec.inner room) signs.now) }
{
    match which {
        Connective::All => compared(alloc, room, signs),
        Connective::Any => members(alloc, Connective::All, room, signs),
    }
}

#[cycle(expressions)]
#[tactic(auto, using(crate::proofs::Joining::members_read), unfolding(crate::specs::Reading::and_then, crate::specs::ExprReading::members_of))]
fn members(alloc: Global, which: Connective, room: usize, signs: &[Sign]) -> Read<Expr>
    ensures { Gives (λ x. (x.0, x.1.now)) result (spec.members which room (spec.inner room) signs.now) }
{
    let (first, rest) = member(alloc, which, room, signs)?;
    let (more, rest) = next_members(alloc, which, room, rest)?;
    Ok((joined(alloc, which, first, more)?, rest))
}

#[cycle(expressions)]
#[tactic(auto, using(crate::proofs::Repeats::loops), unfolding(crate::specs::ExprReading::next_members))]
fn next_members(alloc: Global, which: Connective, room: usize, signs: &[Sign]) -> Read<Items<Expr>>
    ensures { Gives (λ x. (x.0, x.1.now)) result (spec.next_members which (spec.member which room (spec.inner room)) signs.now) }
{
    let mut found = Items::new(alloc);
    let mut rest = signs;
    for _turn in 0..signs.len() {
        if !sees_connective(which, rest) {
            return Ok((found, rest));
        }
        let (member, next) = next_member(alloc, which, room, rest)?;
        found.push(member)?;
        rest = next;
    }
    Ok((found, rest))
}

#[cycle(expressions)]
#[tactic(auto, unfolding(crate::specs::Reading::and_then, crate::specs::ExprReading::next_member))]
fn next_member(alloc: Global, which: Connective, room: usize, signs: &[Sign]) -> Read<Expr>
    ensures { Gives (λ x. (x.0, x.1.now)) result (spec.next_member which (spec.member which room (spec.inner room)) signs.now) }
{
    let rest = expect(connective_mark(which), signs)?;
    member(alloc, which, room, rest)
}

#[cycle(expressions)]
#[tactic(auto, unfolding(crate::specs::Reading::and_then, crate::specs::ExprReading::compared))]
fn compared(alloc: Global, room: usize, signs: &[Sign]) -> Read<Expr>
    ensures { Gives (λ x. (x.0, x.1.now)) result (spec.compared room (spec.inner room) signs.now) }
{
    let (left, rest) = chain(alloc, Level::Bitwise, room, signs)?;
    match comparison(ahead(rest)) {
        Some(op) => {
            let (right, rest) = chain(alloc, Level::Bitwise, room, past(rest))?;
            let compared = Expr::Compare(op, Boxed::new(alloc, left)?, Boxed::new(alloc, right)?);
            Ok((compared, rest))
        }
        None => Ok((left, rest)),
    }
}

#[cycle(expressions)]
#[tactic(auto, using(crate::proofs::Joining::chain_read), unfolding(crate::specs::Reading::and_then, crate::specs::ExprReading::chain_of))]
fn chain(alloc: Global, level: Level, room: usize, signs: &[Sign]) -> Read<Expr>
    ensures { Gives (λ x. (x.0, x.1.now)) result (spec.chain level room (spec.inner room) signs.now) }
{
    let (first, rest) = operand(alloc, level, room, signs)?;
    let (parts, rest) = chain_parts(alloc, level, room, rest)?;
    Ok((chained(alloc, first, parts)?, rest))
}

#[cycle(expressions)]
#[tactic(auto, using(crate::proofs::Repeats::loops), unfolding(crate::specs::ExprReading::chain_parts))]
fn chain_parts(alloc: Global, level: Level, room: usize, signs: &[Sign]) -> Read<Items<ChainPart>>
    ensures { Gives (λ x. (x.0, x.1.now)) result (spec.chain_parts level (spec.operand level room (spec.inner room)) signs.now) }
{
    let mut found = Items::new(alloc);
    let mut rest = signs;
    for _turn in 0..signs.len() {
        if !sees_operator(level, rest) {
            return Ok((found, rest));
        }
        let (part, next) = chain_part(alloc, level, room, rest)?;
        found.push(part)?;
        rest = next;
    }
    Ok((found, rest))
}

#[cycle(expressions)]
#[tactic(auto, unfolding(crate::specs::Reading::and_then, crate::specs::ExprReading::chain_part))]
fn chain_part(alloc: Global, level: Level, room: usize, signs: &[Sign]) -> Read<ChainPart>
    ensures { Gives (λ x. (x.0, x.1.now)) result (spec.chain_part level (spec.operand level room (spec.inner room)) signs.now) }
{
    match operator(level, ahead(signs)) {
        Some(op) => {
            let (operand, rest) = operand(alloc, level, room, past(signs))?;
            Ok((ChainPart { op, operand }, rest))
        }
        None => Err(Stop::Unexpected(signs.len())),
    }
}

#[cycle(expressions)]
#[tactic(auto, unfolding(crate::specs::Reading::and_then))]
fn operand(alloc: Global, level: Level, room: usize, signs: &[Sign]) -> Read<Expr>
    ensures { Gives (λ x. (x.0, x.1.now)) result (spec.operand level room (spec.inner room) signs.now) }
{
    match level {
        Level::Multiplying => unary(alloc, room, signs),
        Level::Adding => chain(alloc, Level::Multiplying, room, signs),
        Level::Bitwise => chain(alloc, Level::Adding, room, signs),
    }
}

#[cycle(expressions)]
#[tactic(auto, unfolding(crate::specs::Reading::and_then, crate::specs::ExprReading::una))]
fn unary(alloc: Global, room: usize, signs: &[Sign]) -> Read<Expr>
    ensures { Gives (λ x. (x.0, x.1.now)) result (spec.una room (spec.inner room) signs.now) }
{
    match ahead(signs) {
        SignKind::Mark(Mark::MinusSign) => {
            let (operand, rest) = primary(alloc, room, past(signs))?;
            Ok((Expr::Minus(Boxed::new(alloc, operand)?), rest))
        }
        SignKind::Mark(Mark::Exclamation) => {
            let (operand, rest) = primary(alloc, room, past(signs))?;
            Ok((Expr::Not(Boxed::new(alloc, operand)?), rest))
        }
        _ => primary(alloc, room, signs),
    }
}

#[cycle(expressions)]
#[tactic(auto, unfolding(crate::specs::Reading::and_then, crate::specs::ExprReading::prim))]
fn primary(alloc: Global, room: usize, signs: &[Sign]) -> Read<Expr>
    ensures { Gives (λ x. (x.0, x.1.now)) result (spec.prim room (spec.inner room) signs.now) }
{
    match ahead(signs) {
        SignKind::Number | SignKind::One => {
            let (value, rest) = number(signs)?;
            Ok((Expr::Number(value), rest))
        }
        SignKind::Name => {
            let (text, rest) = name(alloc, signs)?;
            name_rest(alloc, text, room, rest)
        }
        SignKind::Mark(Mark::True) => Ok((Expr::True, past(signs))),
        SignKind::Mark(Mark::False) => Ok((Expr::False, past(signs))),
        SignKind::Mark(Mark::I64 | Mark::U64 | Mark::Bool) => convert(alloc, room, signs),
        SignKind::Mark(Mark::Throw) => {
            let (code, rest) = number(past(signs))?;
            Ok((Expr::Throw(code), rest))
        }
        SignKind::Mark(Mark::OpenParen) => paren(alloc, room, signs),
        _ => Err(Stop::Unexpected(signs.len())),
    }
}

#[cycle(expressions)]
#[tactic(auto, unfolding(crate::specs::Reading::and_then, crate::specs::ExprReading::paren))]
fn paren(alloc: Global, room: usize, signs: &[Sign]) -> Read<Expr>
    ensures { Gives (λ x. (x.0, x.1.now)) result (spec.paren room (spec.inner room) signs.now) }
{
    let (inside, rest) = enclosed(alloc, Mark::OpenParen, Mark::CloseParen, room, signs)?;
    Ok((Expr::Paren(Boxed::new(alloc, inside)?), rest))
}

#[cycle(expressions)]
#[tactic(auto, unfolding(crate::specs::Reading::and_then, crate::specs::ExprReading::convert))]
fn convert(alloc: Global, room: usize, signs: &[Sign]) -> Read<Expr>
    ensures { Gives (λ x. (x.0, x.1.now)) result (spec.convert room (spec.inner room) signs.now) }
{
    let (kind, rest) = kind(signs)?;
    let (inside, rest) = enclosed(alloc, Mark::OpenParen, Mark::CloseParen, room, rest)?;
    Ok((Expr::Convert(kind, Boxed::new(alloc, inside)?), rest))
}

#[cycle(expressions)]
#[tactic(auto, unfolding(crate::specs::ExprReading::name_rest))]
fn name_rest(alloc: Global, text: Name, room: usize, signs: &[Sign]) -> Read<Expr>
    ensures { Gives (λ x. (x.0, x.1.now)) result (spec.name_rest text room (spec.inner room) signs.now) }
{
    match ahead(signs) {
        SignKind::Mark(Mark::OpenParen) => function_call(alloc, text, room, signs),
        SignKind::Mark(Mark::OpenBracket) => element(alloc, text, room, signs),
        _ => Ok((Expr::Name(text), signs)),
    }
}

#[cycle(expressions)]
#[tactic(auto, unfolding(crate::specs::Reading::and_then, crate::specs::ExprReading::element))]
fn element(alloc: Global, text: Name, room: usize, signs: &[Sign]) -> Read<Expr>
    ensures { Gives (λ x. (x.0, x.1.now)) result (spec.element text room (spec.inner room) signs.now) }
{
    let (index, rest) = enclosed(alloc, Mark::OpenBracket, Mark::CloseBracket, room, signs)?;
    Ok((Expr::Element(text, Boxed::new(alloc, index)?), rest))
}

#[cycle(expressions)]
#[tactic(auto, using(crate::proofs::Rooms::inner_is), unfolding(crate::specs::Reading::and_then, crate::specs::ExprReading::function_call))]
fn function_call(alloc: Global, text: Name, room: usize, signs: &[Sign]) -> Read<Expr>
    ensures { Gives (λ x. (x.0, x.1.now)) result (spec.function_call text room (spec.inner room) signs.now) }
{
    let rest = open_bracket(room, Mark::OpenParen, signs)?;
    let (arguments, rest) = arguments(alloc, room - 1, rest)?;
    let rest = expect(Mark::CloseParen, rest)?;
    Ok((Expr::Call(text, arguments), rest))
}

#[cycle(expressions)]
#[tactic(auto, unfolding(crate::specs::Reading::and_then, crate::specs::ExprReading::arguments))]
fn arguments(alloc: Global, room: usize, signs: &[Sign]) -> Read<Items<Expr>>
    ensures { Gives (λ x. (x.0, x.1.now)) result (spec.arguments (spec.expr room) signs.now) }
{
    let (first, rest) = expr(alloc, room, signs)?;
    let (more, rest) = next_arguments(alloc, room, rest)?;
    Ok((listed(alloc, first, more)?, rest))
}

#[cycle(expressions)]
#[tactic(auto, using(crate::proofs::Repeats::loops), unfolding(crate::specs::ExprReading::next_arguments))]
fn next_arguments(alloc: Global, room: usize, signs: &[Sign]) -> Read<Items<Expr>>
    ensures { Gives (λ x. (x.0, x.1.now)) result (spec.next_arguments (spec.expr room) signs.now) }
{
    let mut found = Items::new(alloc);
    let mut rest = signs;
    for _turn in 0..signs.len() {
        if !sees_comma(rest) {
            return Ok((found, rest));
        }
        let (argument, next) = next_argument(alloc, room, rest)?;
        found.push(argument)?;
        rest = next;
    }
    Ok((found, rest))
}

#[cycle(expressions)]
#[tactic(auto, unfolding(crate::specs::Reading::and_then, crate::specs::ExprReading::next_argument))]
fn next_argument(alloc: Global, room: usize, signs: &[Sign]) -> Read<Expr>
    ensures { Gives (λ x. (x.0, x.1.now)) result (spec.next_argument (spec.expr room) signs.now) }
{
    let rest = expect(Mark::Comma, signs)?;
    expr(alloc, room, rest)
}

/// An expression between two brackets.
#[cycle(expressions)]
#[tactic(auto, using(crate::proofs::Rooms::inner_is), unfolding(crate::specs::Reading::and_then, crate::specs::ExprReading::enclosed))]
pub fn enclosed(alloc: Global, before: Mark, after: Mark, room: usize, signs: &[Sign]) -> Read<Expr>
    ensures { Gives (λ x. (x.0, x.1.now)) result (spec.enclosed before after room (spec.inner room) signs.now) }
{
    let rest = open_bracket(room, before, signs)?;
    let (inside, rest) = expr(alloc, room - 1, rest)?;
    let rest = expect(after, rest)?;
    Ok((inside, rest))
}

/// Whether the first sign is a comma.
#[tactic(auto, unfolding(crate::specs::ExprReading::sees_comma))]
pub fn sees_comma(signs: &[Sign]) -> bool
    ensures { result ≡ spec.sees_comma (ahead signs.now) }
{
    sees(Mark::Comma, signs)
}

fn connective_mark(which: Connective) -> Mark
    ensures { result ≡ spec.connective_mark which }
{
    match which {
        Connective::All => Mark::AmpersandAmpersand,
        Connective::Any => Mark::BarBar,
    }
}

#[tactic(auto, unfolding(crate::specs::ExprReading::sees_connective))]
fn sees_connective(which: Connective, signs: &[Sign]) -> bool
    ensures { result ≡ spec.sees_connective which (ahead signs.now) }
{
    sees(connective_mark(which), signs)
}

// The operator of a chain of this level.
#[tactic(auto, unfolding(crate::specs::ExprReading::operator))]
fn operator(level: Level, kind: SignKind) -> Option<ScalarOp>
    ensures { result ≡ spec.operator level kind }
{
    match (level, kind) {
        (Level::Multiplying, SignKind::Mark(Mark::Star)) => Some(ScalarOp::Multiplies),
        (Level::Multiplying, SignKind::Mark(Mark::Slash)) => Some(ScalarOp::Divides),
        (Level::Multiplying, SignKind::Mark(Mark::Percent)) => Some(ScalarOp::Modulus),
        (Level::Adding, SignKind::Mark(Mark::PlusSign)) => Some(ScalarOp::Plus),
        (Level::Adding, SignKind::Mark(Mark::MinusSign)) => Some(ScalarOp::Minus),
        (Level::Bitwise, SignKind::Mark(Mark::Ampersand)) => Some(ScalarOp::BitAnd),
        (Level::Bitwise, SignKind::Mark(Mark::Bar)) => Some(ScalarOp::BitOr),
        (Level::Bitwise, SignKind::Mark(Mark::Caret)) => Some(ScalarOp::BitXor),
        _ => None,
    }
}

#[tactic(auto, unfolding(crate::specs::ExprReading::sees_operator))]
fn sees_operator(level: Level, signs: &[Sign]) -> bool
    ensures { result ≡ spec.sees_operator level (ahead signs.now) }
{
    operator(level, ahead(signs)).is_some()
}

// The operator of a comparison.
#[tactic(auto, unfolding(crate::specs::ExprReading::comparison))]
fn comparison(kind: SignKind) -> Option<ScalarOp>
    ensures { result ≡ spec.comparison kind }
{
    match kind {
        SignKind::Mark(Mark::EqualEqual) => Some(ScalarOp::Equal),
        SignKind::Mark(Mark::ExclamationEqual) => Some(ScalarOp::NotEqual),
        SignKind::Mark(Mark::Less) => Some(ScalarOp::Less),
        SignKind::Mark(Mark::LessEqual) => Some(ScalarOp::LessEqual),
        SignKind::Mark(Mark::Greater) => Some(ScalarOp::Greater),
        SignKind::Mark(Mark::GreaterEqual) => Some(ScalarOp::GreaterEqual),
        _ => None,
    }
}

// An operand alone is no chain.
fn chained(alloc: Global, first: Expr, parts: Items<ChainPart>) -> Result<Expr, AllocError>
    ensures { IfOk result (λ x. x ≡ spec.chained first parts) }
{
    if parts.is_empty() {
        return Ok(first);
    }
    Ok(Expr::Chain(Boxed::new(alloc, first)?, parts))
}

// A member alone is joined with nothing.
fn joined(
    alloc: Global,
    which: Connective,
    first: Expr,
    more: Items<Expr>,
) -> Result<Expr, AllocError>
    ensures { IfOk result (λ x. x ≡ spec.joined which first more) }
{
    if more.is_empty() {
        return Ok(first);
    }
    let members = listed(alloc, first, more)?;
    Ok(match which {
        Connective::All => Expr::All(members),
        Connective::Any => Expr::Any(members),
    })
}
