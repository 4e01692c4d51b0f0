//! Reading loops.

ghost use Rattle.std.specs.Prelude.{◌≡◌};
ghost use Rattle.pts_parse.specs.Reading.{ahead, Gives};
ghost use Rattle.pts_parse.specs.LoopReading as spec;

use crate::calls::{op, policy};
use crate::expressions::{enclosed, expr};
use crate::reader::{Read, Stop, ahead, expect, name, number, open_bracket, past, sees};
use crate::sums::{atom, cell, index, sum, sum_behind, typed, val};
use pts_tree::{
    Atom, BodyStmt, Cell, Clause, Expr, InductClause, Initial, Loop, Mark, Name, Place,
    ReduceClause, Sign, SignKind, Sum, Val,
};
use pts_types::{Kind, Policy, ScalarOp};
use sqlite_items::Items;
use std::alloc::Global;

#[tactic(auto, unfolding(crate::specs::Reading::and_then, crate::specs::LoopReading::step))]
fn step(alloc: Global, signs: &[Sign]) -> Read<Option<Sum>>
    ensures { Gives (λ x. (x.0, x.1.now)) result (spec.step signs.now) }
{
    if sees(Mark::Step, signs) {
        let (value, rest) = sum(alloc, past(signs))?;
        return Ok((Some(value), rest));
    }
    Ok((None, signs))
}

#[tactic(auto, unfolding(crate::specs::Reading::and_then, crate::specs::LoopReading::identity))]
fn identity(alloc: Global, signs: &[Sign]) -> Read<Option<Val>>
    ensures { Gives (λ x. (x.0, x.1.now)) result (spec.identity signs.now) }
{
    if sees(Mark::Identity, signs) {
        let (value, rest) = val(alloc, past(signs))?;
        return Ok((Some(value), rest));
    }
    Ok((None, signs))
}

#[tactic(auto, unfolding(crate::specs::Reading::and_then, crate::specs::LoopReading::view))]
fn view(alloc: Global, signs: &[Sign]) -> Read<Name>
    ensures { Gives (λ x. (x.0, x.1.now)) result (spec.view signs.now) }
{
    let rest = expect(Mark::As, signs)?;
    name(alloc, rest)
}

#[tactic(auto, unfolding(crate::specs::Reading::and_then, crate::specs::LoopReading::reduce_clause))]
fn reduce_clause(alloc: Global, room: usize, signs: &[Sign]) -> Read<Clause>
    ensures { Gives (λ x. (x.0, x.1.now)) result (spec.reduce_clause room signs.now) }
{
    let (cell, rest) = cell(alloc, room, signs)?;
    let (op, rest) = op(alloc, rest)?;
    let (identity, rest) = identity(alloc, rest)?;
    let (view, rest) = view(alloc, rest)?;
    let clause = ReduceClause {
        cell,
        op,
        identity,
        view,
    };
    Ok((Clause::Reduce(clause), rest))
}

// A sum of which the first atom is known.
#[tactic(auto, unfolding(crate::specs::Reading::and_then, crate::specs::LoopReading::initial_sum))]
fn initial_sum(alloc: Global, negative: bool, first: Atom, signs: &[Sign]) -> Read<Initial>
    ensures { Gives (λ x. (x.0, x.1.now)) result (spec.initial_sum negative first signs.now) }
{
    let (sum, rest) = sum_behind(alloc, negative, first, signs)?;
    Ok((Initial::Val(Val::Sum(sum)), rest))
}

// A cell, or a sum that begins with a name.
#[tactic(auto, unfolding(crate::specs::Reading::and_then, crate::specs::LoopReading::initial_behind))]
fn initial_behind(alloc: Global, room: usize, text: Name, signs: &[Sign]) -> Read<Initial>
    ensures { Gives (λ x. (x.0, x.1.now)) result (spec.initial_behind room text signs.now) }
{
    if sees(Mark::OpenBracket, signs) {
        let (index, rest) = index(alloc, room, signs)?;
        return Ok((Initial::Cell(Cell { array: text, index }), rest));
    }
    initial_sum(alloc, false, Atom::Name(text), signs)
}

#[tactic(auto, unfolding(crate::specs::Reading::and_then, crate::specs::LoopReading::initial))]
fn initial(alloc: Global, room: usize, signs: &[Sign]) -> Read<Initial>
    ensures { Gives (λ x. (x.0, x.1.now)) result (spec.initial room signs.now) }
{
    match ahead(signs) {
        SignKind::Name => {
            let (text, rest) = name(alloc, signs)?;
            initial_behind(alloc, room, text, rest)
        }
        SignKind::Number | SignKind::One => {
            let (value, rest) = number(signs)?;
            initial_sum(alloc, false, Atom::Number(value), rest)
        }
        SignKind::Mark(Mark::MinusSign) => {
            let (first, rest) = atom(alloc, past(signs))?;
            initial_sum(alloc, true, first, rest)
        }
        SignKind::Mark(Mark::True) => Ok((Initial::Val(Val::True), past(signs))),
        SignKind::Mark(Mark::False) => Ok((Initial::Val(Val::False), past(signs))),
        _ => Err(Stop::Unexpected(signs.len())),
    }
}

#[tactic(auto, unfolding(crate::specs::Reading::and_then, crate::specs::LoopReading::induct_head))]
fn induct_head(alloc: Global, signs: &[Sign]) -> Read<(Name, Kind)>
    ensures { Gives (λ x. (x.0, x.1.now)) result (spec.induct_head signs.now) }
{
    let (head, rest) = typed(alloc, signs)?;
    let rest = expect(Mark::Equal, rest)?;
    Ok((head, rest))
}

#[tactic(auto, unfolding(crate::specs::Reading::and_then, crate::specs::LoopReading::induct_clause))]
fn induct_clause(alloc: Global, room: usize, signs: &[Sign]) -> Read<Clause>
    ensures { Gives (λ x. (x.0, x.1.now)) result (spec.induct_clause room signs.now) }
{
    let ((name, kind), rest) = induct_head(alloc, signs)?;
    let (initial, rest) = initial(alloc, room, rest)?;
    let (step, rest) = step(alloc, rest)?;
    let clause = InductClause {
        name,
        kind,
        initial,
        step,
    };
    Ok((Clause::Induct(clause), rest))
}

#[tactic(auto, unfolding(crate::specs::LoopReading::clause))]
fn clause(alloc: Global, room: usize, signs: &[Sign]) -> Read<Clause>
    ensures { Gives (λ x. (x.0, x.1.now)) result (spec.clause room signs.now) }
{
    match ahead(signs) {
        SignKind::Mark(Mark::Reduce) => reduce_clause(alloc, room, past(signs)),
        SignKind::Mark(Mark::Induct) => induct_clause(alloc, room, past(signs)),
        _ => Err(Stop::Unexpected(signs.len())),
    }
}

#[tactic(auto, unfolding(crate::specs::LoopReading::sees_clause))]
fn sees_clause(signs: &[Sign]) -> bool
    ensures { result ≡ spec.sees_clause (ahead signs.now) }
{
    matches!(ahead(signs), SignKind::Mark(Mark::Reduce | Mark::Induct))
}

#[tactic(auto, using(crate::proofs::Repeats::loops), unfolding(crate::specs::LoopReading::clauses_of))]
fn clauses_of(alloc: Global, room: usize, signs: &[Sign]) -> Read<Items<Clause>>
    ensures { Gives (λ x. (x.0, x.1.now)) result (spec.clauses_of room signs.now) }
{
    let mut found = Items::new(alloc);
    let mut rest = signs;
    for _turn in 0..signs.len() {
        if !sees_clause(rest) {
            return Ok((found, rest));
        }
        let (part, next) = clause(alloc, room, rest)?;
        found.push(part)?;
        rest = next;
    }
    Ok((found, rest))
}

#[tactic(auto, unfolding(crate::specs::LoopReading::bracketed))]
fn bracketed(alloc: Global, room: usize, signs: &[Sign]) -> Read<Expr>
    ensures { Gives (λ x. (x.0, x.1.now)) result (spec.bracketed room signs.now) }
{
    enclosed(alloc, Mark::OpenBracket, Mark::CloseBracket, room, signs)
}

#[tactic(auto, unfolding(crate::specs::Reading::and_then, crate::specs::LoopReading::place))]
fn place(alloc: Global, room: usize, signs: &[Sign]) -> Read<Place>
    ensures { Gives (λ x. (x.0, x.1.now)) result (spec.place room signs.now) }
{
    let (array, rest) = name(alloc, signs)?;
    let (index, rest) = bracketed(alloc, room, rest)?;
    Ok((Place { array, index }, rest))
}

/// An expression between a sign and `;`.
#[tactic(auto, unfolding(crate::specs::Reading::and_then, crate::specs::LoopReading::value))]
pub fn value(alloc: Global, sign: Mark, room: usize, signs: &[Sign]) -> Read<Expr>
    ensures { Gives (λ x. (x.0, x.1.now)) result (spec.value sign room signs.now) }
{
    let rest = expect(sign, signs)?;
    let (value, rest) = expr(alloc, room, rest)?;
    let rest = expect(Mark::Semicolon, rest)?;
    Ok((value, rest))
}

#[tactic(auto, unfolding(crate::specs::Reading::and_then, crate::specs::LoopReading::assign))]
fn assign(alloc: Global, room: usize, text: Name, signs: &[Sign]) -> Read<BodyStmt>
    ensures { Gives (λ x. (x.0, x.1.now)) result (spec.assign room text signs.now) }
{
    let (index, rest) = bracketed(alloc, room, signs)?;
    let (value, rest) = value(alloc, Mark::Equal, room, rest)?;
    Ok((BodyStmt::Assign(Place { array: text, index }, value), rest))
}

#[tactic(auto, unfolding(crate::specs::Reading::and_then, crate::specs::LoopReading::combine))]
fn combine(alloc: Global, room: usize, text: Name, signs: &[Sign]) -> Read<BodyStmt>
    ensures { Gives (λ x. (x.0, x.1.now)) result (spec.combine room text signs.now) }
{
    let (value, rest) = value(alloc, Mark::TildeEqual, room, signs)?;
    Ok((BodyStmt::Combine(text, value), rest))
}

#[tactic(auto, unfolding(crate::specs::LoopReading::name_stmt))]
fn name_statement(alloc: Global, room: usize, text: Name, signs: &[Sign]) -> Read<BodyStmt>
    ensures { Gives (λ x. (x.0, x.1.now)) result (spec.name_stmt room text signs.now) }
{
    match ahead(signs) {
        SignKind::Mark(Mark::OpenBracket) => assign(alloc, room, text, signs),
        SignKind::Mark(Mark::TildeEqual) => combine(alloc, room, text, signs),
        _ => Err(Stop::Unexpected(signs.len())),
    }
}

#[tactic(auto, unfolding(crate::specs::Reading::and_then, crate::specs::LoopReading::let_name))]
fn let_name(alloc: Global, room: usize, signs: &[Sign]) -> Read<BodyStmt>
    ensures { Gives (λ x. (x.0, x.1.now)) result (spec.let_name room signs.now) }
{
    let (text, rest) = name(alloc, signs)?;
    let (value, rest) = value(alloc, Mark::Equal, room, rest)?;
    Ok((BodyStmt::Let(text, value), rest))
}

#[tactic(auto, unfolding(crate::specs::LoopReading::upd))]
fn update(signs: &[Sign]) -> Read<ScalarOp>
    ensures { Gives (λ x. (x.0, x.1.now)) result (spec.upd signs.now) }
{
    let op = match ahead(signs) {
        SignKind::Mark(Mark::PlusEqual) => ScalarOp::Plus,
        SignKind::Mark(Mark::MinusEqual) => ScalarOp::Minus,
        SignKind::Mark(Mark::StarEqual) => ScalarOp::Multiplies,
        SignKind::Mark(Mark::AmpersandEqual) => ScalarOp::BitAnd,
        SignKind::Mark(Mark::BarEqual) => ScalarOp::BitOr,
        SignKind::Mark(Mark::CaretEqual) => ScalarOp::BitXor,
        _ => return Err(Stop::Unexpected(signs.len())),
    };
    Ok((op, past(signs)))
}

#[tactic(auto, unfolding(crate::specs::Reading::and_then, crate::specs::LoopReading::ordered))]
fn ordered(alloc: Global, room: usize, signs: &[Sign]) -> Read<BodyStmt>
    ensures { Gives (λ x. (x.0, x.1.now)) result (spec.ordered room signs.now) }
{
    let (place, rest) = place(alloc, room, signs)?;
    let (op, rest) = update(rest)?;
    let (value, rest) = expr(alloc, room, rest)?;
    let rest = expect(Mark::Semicolon, rest)?;
    Ok((BodyStmt::Ordered(place, op, value), rest))
}

// Statements between braces.
#[cycle(statements)]
#[tactic(auto, using(crate::proofs::Rooms::inner_bstmts_is), unfolding(crate::specs::Reading::and_then, crate::specs::LoopReading::braced))]
fn braced(alloc: Global, room: usize, signs: &[Sign]) -> Read<Items<BodyStmt>>
    ensures { Gives (λ x. (x.0, x.1.now)) result (spec.braced room (spec.inner_bstmts room) signs.now) }
{
    let rest = open_bracket(room, Mark::OpenBrace, signs)?;
    let (statements, rest) = body_statements(alloc, room - 1, rest)?;
    let rest = expect(Mark::CloseBrace, rest)?;
    Ok((statements, rest))
}

#[cycle(statements)]
#[tactic(auto, unfolding(crate::specs::Reading::and_then, crate::specs::LoopReading::else_part))]
fn else_part(alloc: Global, room: usize, signs: &[Sign]) -> Read<Option<Items<BodyStmt>>>
    ensures { Gives (λ x. (x.0, x.1.now)) result (spec.else_part room (spec.inner_bstmts room) signs.now) }
{
    if sees(Mark::Else, signs) {
        let (statements, rest) = braced(alloc, room, past(signs))?;
        return Ok((Some(statements), rest));
    }
    Ok((None, signs))
}

#[cycle(statements)]
#[tactic(auto, unfolding(crate::specs::Reading::and_then, crate::specs::LoopReading::if_stmt))]
fn if_statement(alloc: Global, room: usize, signs: &[Sign]) -> Read<BodyStmt>
    ensures { Gives (λ x. (x.0, x.1.now)) result (spec.if_stmt room (spec.inner_bstmts room) signs.now) }
{
    let (test, rest) = expr(alloc, room, signs)?;
    let (first, rest) = braced(alloc, room, rest)?;
    let (second, rest) = else_part(alloc, room, rest)?;
    Ok((BodyStmt::If(test, first, second), rest))
}

#[cycle(statements)]
#[tactic(auto, unfolding(crate::specs::Reading::and_then, crate::specs::LoopReading::vec_off))]
fn vec_off(alloc: Global, room: usize, signs: &[Sign]) -> Read<BodyStmt>
    ensures { Gives (λ x. (x.0, x.1.now)) result (spec.vec_off room (spec.inner_bstmts room) signs.now) }
{
    let (statements, rest) = braced(alloc, room, signs)?;
    Ok((BodyStmt::VecOff(statements), rest))
}

#[cycle(statements)]
#[tactic(auto, unfolding(crate::specs::Reading::and_then, crate::specs::LoopReading::bstmt_of))]
fn body_statement(alloc: Global, room: usize, signs: &[Sign]) -> Read<BodyStmt>
    ensures { Gives (λ x. (x.0, x.1.now)) result (spec.bstmt_of room (spec.inner_bstmts room) signs.now) }
{
    match ahead(signs) {
        SignKind::Name => {
            let (text, rest) = name(alloc, signs)?;
            name_statement(alloc, room, text, rest)
        }
        SignKind::Mark(Mark::Let) => let_name(alloc, room, past(signs)),
        SignKind::Mark(Mark::If) => if_statement(alloc, room, past(signs)),
        SignKind::Mark(Mark::VecOff) => vec_off(alloc, room, past(signs)),
        SignKind::Mark(Mark::Ordered) => ordered(alloc, room, past(signs)),
        _ => Err(Stop::Unexpected(signs.len())),
    }
}

#[cycle(statements)]
#[tactic(auto, using(crate::proofs::Repeats::loops, crate::proofs::Rooms::bstmts_is))]
fn body_statements(alloc: Global, room: usize, signs: &[Sign]) -> Read<Items<BodyStmt>>
    ensures { Gives (λ x. (x.0, x.1.now)) result (spec.bstmts room signs.now) }
{
    let mut found = Items::new(alloc);
    let mut rest = signs;
    for _turn in 0..signs.len() {
        if !sees_body_statement(rest) {
            return Ok((found, rest));
        }
        let (part, next) = body_statement(alloc, room, rest)?;
        found.push(part)?;
        rest = next;
    }
    Ok((found, rest))
}

#[tactic(auto, unfolding(crate::specs::LoopReading::sees_bstmt))]
fn sees_body_statement(signs: &[Sign]) -> bool
    ensures { result ≡ spec.sees_bstmt (ahead signs.now) }
{
    matches!(
        ahead(signs),
        SignKind::Name | SignKind::Mark(Mark::Let | Mark::If | Mark::VecOff | Mark::Ordered)
    )
}

#[tactic(auto, unfolding(crate::specs::LoopReading::body))]
fn body(alloc: Global, room: usize, signs: &[Sign]) -> Read<Items<BodyStmt>>
    ensures { Gives (λ x. (x.0, x.1.now)) result (spec.body room signs.now) }
{
    braced(alloc, room, signs)
}

#[tactic(auto, unfolding(crate::specs::Reading::and_then, crate::specs::LoopReading::loop_head))]
fn loop_head(alloc: Global, signs: &[Sign]) -> Read<(Policy, Name)>
    ensures { Gives (λ x. (x.0, x.1.now)) result (spec.loop_head signs.now) }
{
    let (policy, rest) = policy(signs)?;
    let (index, rest) = name(alloc, rest)?;
    let rest = expect(Mark::Equal, rest)?;
    Ok(((policy, index), rest))
}

#[tactic(auto, unfolding(crate::specs::Reading::and_then, crate::specs::LoopReading::bounds))]
fn bounds(alloc: Global, signs: &[Sign]) -> Read<((Sum, Sum), Option<Sum>)>
    ensures { Gives (λ x. (x.0, x.1.now)) result (spec.bounds signs.now) }
{
    let (low, rest) = sum(alloc, signs)?;
    let rest = expect(Mark::To, rest)?;
    let (high, rest) = sum(alloc, rest)?;
    let (step, rest) = step(alloc, rest)?;
    Ok((((low, high), step), rest))
}

/// A loop behind its word.
#[tactic(auto, unfolding(crate::specs::Reading::and_then, crate::specs::LoopReading::loop_behind))]
pub fn loop_behind(alloc: Global, room: usize, signs: &[Sign]) -> Read<Loop>
    ensures { Gives (λ x. (x.0, x.1.now)) result (spec.loop_behind room signs.now) }
{
    let ((policy, index), rest) = loop_head(alloc, signs)?;
    let (((low, high), step), rest) = bounds(alloc, rest)?;
    let (clauses, rest) = clauses_of(alloc, room, rest)?;
    let (body, rest) = body(alloc, room, rest)?;
    let whole = Loop {
        policy,
        index,
        low,
        high,
        step,
        clauses,
        body,
    };
    Ok((whole, rest))
}
