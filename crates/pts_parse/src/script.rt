//! Reading declarations, items and scripts.

ghost use Rattle.std.specs.Prelude.{◌≡◌, ℕ, Err, IfOk};
ghost use Rattle.pts_parse.specs.Promise.{IsNesting, IsRead, IsUnexpected};
ghost use Rattle.pts_parse.specs.Reading.{ahead, Gives};
ghost use Rattle.pts_parse.specs.ScriptReading as spec;

use crate::blocks::{block, sees_call};
use crate::calls::call;
use crate::expressions::sees_comma;
use crate::loops::{loop_behind, value};
use crate::reader::{Read, Stop, ahead, expect, listed, name, open_bracket, past};
use crate::sums::{index, kind, sum, typed, val};
use pts_tree::{
    ArrayDecl, ConstDecl, FunctionDecl, Item, Mark, Name, Param, Script, Sign, SignKind, Start, Val,
};
use pts_types::Kind;
use sqlite_items::Items;
use std::alloc::Global;

#[tactic(auto, unfolding(crate::specs::Reading::and_then, crate::specs::ScriptReading::const_decl))]
fn const_decl(alloc: Global, signs: &[Sign]) -> Read<Item>
    ensures { Gives (λ x. (x.0, x.1.now)) result (spec.const_decl signs.now) }
{
    let (name, rest) = name(alloc, signs)?;
    let rest = expect(Mark::Equal, rest)?;
    let (value, rest) = sum(alloc, rest)?;
    let rest = expect(Mark::Semicolon, rest)?;
    Ok((Item::Const(ConstDecl { name, value }), rest))
}

#[tactic(auto, unfolding(crate::specs::Reading::and_then, crate::specs::ScriptReading::next_val))]
fn next_val(alloc: Global, signs: &[Sign]) -> Read<Val>
    ensures { Gives (λ x. (x.0, x.1.now)) result (spec.next_val signs.now) }
{
    let rest = expect(Mark::Comma, signs)?;
    val(alloc, rest)
}

#[tactic(auto, using(crate::proofs::Repeats::loops), unfolding(crate::specs::ScriptReading::next_vals))]
fn next_vals(alloc: Global, signs: &[Sign]) -> Read<Items<Val>>
    ensures { Gives (λ x. (x.0, x.1.now)) result (spec.next_vals signs.now) }
{
    let mut found = Items::new(alloc);
    let mut rest = signs;
    for _turn in 0..signs.len() {
        if !sees_comma(rest) {
            return Ok((found, rest));
        }
        let (part, next) = next_val(alloc, rest)?;
        found.push(part)?;
        rest = next;
    }
    Ok((found, rest))
}

#[tactic(auto, unfolding(crate::specs::Reading::and_then, crate::specs::ScriptReading::vals))]
fn vals(alloc: Global, signs: &[Sign]) -> Read<Items<Val>>
    ensures { Gives (λ x. (x.0, x.1.now)) result (spec.vals signs.now) }
{
    let (first, rest) = val(alloc, signs)?;
    let (more, rest) = next_vals(alloc, rest)?;
    Ok((listed(alloc, first, more)?, rest))
}

#[tactic(auto, unfolding(crate::specs::Reading::and_then, crate::specs::ScriptReading::iota))]
fn iota(alloc: Global, signs: &[Sign]) -> Read<Start>
    ensures { Gives (λ x. (x.0, x.1.now)) result (spec.iota signs.now) }
{
    let (first, rest) = sum(alloc, signs)?;
    let rest = expect(Mark::Step, rest)?;
    let (step, rest) = sum(alloc, rest)?;
    Ok((Start::Iota(first, step), rest))
}

#[tactic(auto, unfolding(crate::specs::Reading::and_then, crate::specs::ScriptReading::start))]
fn start(alloc: Global, signs: &[Sign]) -> Read<Start>
    ensures { Gives (λ x. (x.0, x.1.now)) result (spec.start signs.now) }
{
    match ahead(signs) {
        SignKind::Mark(Mark::List) => {
            let (values, rest) = vals(alloc, past(signs))?;
            Ok((Start::List(values), rest))
        }
        SignKind::Mark(Mark::Fill) => {
            let (value, rest) = val(alloc, past(signs))?;
            Ok((Start::Fill(value), rest))
        }
        SignKind::Mark(Mark::Iota) => iota(alloc, past(signs)),
        SignKind::Mark(Mark::Mix) => {
            let (seed, rest) = sum(alloc, past(signs))?;
            Ok((Start::Mix(seed), rest))
        }
        _ => Err(Stop::Unexpected(signs.len())),
    }
}

#[tactic(auto, unfolding(crate::specs::Reading::and_then, crate::specs::ScriptReading::start_part))]
fn start_part(alloc: Global, signs: &[Sign]) -> Read<Start>
    ensures { Gives (λ x. (x.0, x.1.now)) result (spec.start_part signs.now) }
{
    let rest = expect(Mark::Equal, signs)?;
    let (start, rest) = start(alloc, rest)?;
    let rest = expect(Mark::Semicolon, rest)?;
    Ok((start, rest))
}

#[tactic(auto, unfolding(crate::specs::Reading::and_then, crate::specs::ScriptReading::array_decl))]
fn array_decl(alloc: Global, room: usize, signs: &[Sign]) -> Read<Item>
    ensures { Gives (λ x. (x.0, x.1.now)) result (spec.array_decl room signs.now) }
{
    let ((name, kind), rest) = typed(alloc, signs)?;
    let (length, rest) = index(alloc, room, rest)?;
    let (start, rest) = start_part(alloc, rest)?;
    let array = ArrayDecl {
        name,
        kind,
        length,
        start,
    };
    Ok((Item::Array(array), rest))
}

#[tactic(auto, unfolding(crate::specs::Reading::and_then, crate::specs::ScriptReading::param))]
fn param(alloc: Global, signs: &[Sign]) -> Read<Param>
    ensures { Gives (λ x. (x.0, x.1.now)) result (spec.param signs.now) }
{
    let ((name, kind), rest) = typed(alloc, signs)?;
    Ok((Param { name, kind }, rest))
}

#[tactic(auto, unfolding(crate::specs::Reading::and_then, crate::specs::ScriptReading::next_param))]
fn next_param(alloc: Global, signs: &[Sign]) -> Read<Param>
    ensures { Gives (λ x. (x.0, x.1.now)) result (spec.next_param signs.now) }
{
    let rest = expect(Mark::Comma, signs)?;
    param(alloc, rest)
}

#[tactic(auto, using(crate::proofs::Repeats::loops), unfolding(crate::specs::ScriptReading::next_params))]
fn next_params(alloc: Global, signs: &[Sign]) -> Read<Items<Param>>
    ensures { Gives (λ x. (x.0, x.1.now)) result (spec.next_params signs.now) }
{
    let mut found = Items::new(alloc);
    let mut rest = signs;
    for _turn in 0..signs.len() {
        if !sees_comma(rest) {
            return Ok((found, rest));
        }
        let (part, next) = next_param(alloc, rest)?;
        found.push(part)?;
        rest = next;
    }
    Ok((found, rest))
}

#[tactic(auto, unfolding(crate::specs::Reading::and_then, crate::specs::ScriptReading::params))]
fn params(alloc: Global, signs: &[Sign]) -> Read<Items<Param>>
    ensures { Gives (λ x. (x.0, x.1.now)) result (spec.params signs.now) }
{
    let (first, rest) = param(alloc, signs)?;
    let (more, rest) = next_params(alloc, rest)?;
    Ok((listed(alloc, first, more)?, rest))
}

#[tactic(auto, unfolding(crate::specs::Reading::and_then, crate::specs::ScriptReading::signature))]
fn signature(alloc: Global, room: usize, signs: &[Sign]) -> Read<(Name, Items<Param>)>
    ensures { Gives (λ x. (x.0, x.1.now)) result (spec.signature room signs.now) }
{
    let (name, rest) = name(alloc, signs)?;
    let rest = open_bracket(room, Mark::OpenParen, rest)?;
    let (params, rest) = params(alloc, rest)?;
    let rest = expect(Mark::CloseParen, rest)?;
    Ok(((name, params), rest))
}

#[tactic(auto, unfolding(crate::specs::Reading::and_then, crate::specs::ScriptReading::result_kind))]
fn result_kind(signs: &[Sign]) -> Read<Kind>
    ensures { Gives (λ x. (x.0, x.1.now)) result (spec.result_kind signs.now) }
{
    let rest = expect(Mark::Arrow, signs)?;
    kind(rest)
}

#[tactic(auto, unfolding(crate::specs::Reading::and_then, crate::specs::ScriptReading::function_decl))]
fn function_decl(alloc: Global, room: usize, signs: &[Sign]) -> Read<Item>
    ensures { Gives (λ x. (x.0, x.1.now)) result (spec.function_decl room signs.now) }
{
    let ((name, params), rest) = signature(alloc, room, signs)?;
    let (kind, rest) = result_kind(rest)?;
    let (body, rest) = value(alloc, Mark::Equal, room, rest)?;
    let function = FunctionDecl {
        name,
        params,
        kind,
        body,
    };
    Ok((Item::Function(function), rest))
}

#[tactic(auto, unfolding(crate::specs::Reading::and_then, crate::specs::ScriptReading::print))]
fn print(alloc: Global, signs: &[Sign]) -> Read<Item>
    ensures { Gives (λ x. (x.0, x.1.now)) result (spec.print signs.now) }
{
    let (name, rest) = name(alloc, signs)?;
    let rest = expect(Mark::Semicolon, rest)?;
    Ok((Item::Print(name), rest))
}

#[tactic(auto, unfolding(crate::specs::Reading::and_then, crate::specs::ScriptReading::item))]
fn item(alloc: Global, room: usize, signs: &[Sign]) -> Read<Item>
    ensures { Gives (λ x. (x.0, x.1.now)) result (spec.item room signs.now) }
{
    match ahead(signs) {
        SignKind::Mark(Mark::Const) => const_decl(alloc, past(signs)),
        SignKind::Mark(Mark::Array) => array_decl(alloc, room, past(signs)),
        SignKind::Mark(Mark::Function) => function_decl(alloc, room, past(signs)),
        SignKind::Mark(Mark::ForLoop) => {
            let (statement, rest) = loop_behind(alloc, room, past(signs))?;
            Ok((Item::Loop(statement), rest))
        }
        SignKind::Mark(Mark::TaskBlock) => {
            let (block, rest) = block(alloc, room, past(signs))?;
            Ok((Item::Block(block), rest))
        }
        SignKind::Mark(Mark::Print) => print(alloc, past(signs)),
        _ => {
            let (call, rest) = call(alloc, room, signs)?;
            Ok((Item::Call(call), rest))
        }
    }
}

#[tactic(auto, unfolding(crate::specs::ScriptReading::sees_item))]
fn sees_item(signs: &[Sign]) -> bool
    ensures { result ≡ spec.sees_item (ahead signs.now) }
{
    match ahead(signs) {
        SignKind::Mark(
            Mark::Const
            | Mark::Array
            | Mark::Function
            | Mark::ForLoop
            | Mark::TaskBlock
            | Mark::Print,
        ) => true,
        _ => sees_call(signs),
    }
}

#[tactic(auto, using(crate::proofs::Repeats::loops), unfolding(crate::specs::ScriptReading::item_list))]
fn item_list(alloc: Global, room: usize, signs: &[Sign]) -> Read<Items<Item>>
    ensures { Gives (λ x. (x.0, x.1.now)) result (spec.item_list room signs.now) }
{
    let mut found = Items::new(alloc);
    let mut rest = signs;
    for _turn in 0..signs.len() {
        if !sees_item(rest) {
            return Ok((found, rest));
        }
        let (part, next) = item(alloc, room, rest)?;
        found.push(part)?;
        rest = next;
    }
    Ok((found, rest))
}

// The number 1.
#[tactic(auto, unfolding(crate::specs::ScriptReading::version))]
fn version(signs: &[Sign]) -> Result<&[Sign], Stop>
    ensures { Gives (λ x. x.now) result (spec.version signs.now) }
{
    match ahead(signs) {
        SignKind::One => Ok(past(signs)),
        _ => Err(Stop::Unexpected(signs.len())),
    }
}

#[tactic(auto, unfolding(crate::specs::Reading::and_then, crate::specs::ScriptReading::header))]
fn header(signs: &[Sign]) -> Result<&[Sign], Stop>
    ensures { Gives (λ x. x.now) result (spec.header signs.now) }
{
    let rest = expect(Mark::Pts, signs)?;
    let rest = version(rest)?;
    expect(Mark::Semicolon, rest)
}

// No sign is left behind the items.
#[tactic(auto, unfolding(crate::specs::ScriptReading::finish))]
fn finish(items: Items<Item>, signs: &[Sign]) -> Result<Script, Stop>
    ensures { Gives (λ x. x) result (spec.finish items signs.now) }
{
    if signs.is_empty() {
        Ok(Script { version: 1, items })
    } else {
        Err(Stop::Unexpected(signs.len()))
    }
}

#[tactic(auto, unfolding(crate::specs::Reading::and_then, crate::specs::ScriptReading::script))]
fn script(alloc: Global, room: usize, signs: &[Sign]) -> Result<Script, Stop>
    ensures { Gives (λ x. x) result (spec.script room signs.now) }
{
    let rest = header(signs)?;
    let (items, rest) = item_list(alloc, room, rest)?;
    finish(items, rest)
}

// The most brackets that may be open at once.
const BRACKET_LIMIT: usize = 64;

/// The script that the signs spell, with at most 64 brackets open at once. `Unexpected` and `Nesting` count the signs that
/// are left, from the first one on with which no script begins, or which opens a 65th bracket.
pub fn parse_signs(alloc: Global, signs: &[Sign]) -> Result<Script, Stop>
    ensures script { IfOk result (IsRead signs.now) }
    ensures unexpected { (left : ℕ) → result ≡ Err (Stop.Unexpected left) → IsUnexpected signs.now left }
    ensures nesting { (left : ℕ) → result ≡ Err (Stop.Nesting left) → IsNesting signs.now left }
{
    script(alloc, BRACKET_LIMIT, signs)
}
