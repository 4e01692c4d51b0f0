//! Reading sums and what they measure.

ghost use Rattle.std.specs.Prelude.{◌≡◌};
ghost use Rattle.pts_parse.specs.Reading.{ahead, Gives};
ghost use Rattle.pts_parse.specs.SumReading as spec;

use crate::reader::{Read, Stop, ahead, expect, name, number, open_bracket, past, sees};
use pts_tree::{Atom, Cell, Mark, Name, Range, Sign, SignKind, Sum, SumPart, Val};
use pts_types::Kind;
use sqlite_items::Items;
use std::alloc::Global;

#[tactic(auto, unfolding(crate::specs::Reading::and_then, crate::specs::SumReading::atom))]
pub fn atom(alloc: Global, signs: &[Sign]) -> Read<Atom>
    ensures { Gives (λ x. (x.0, x.1.now)) result (spec.atom signs.now) }
{
    match ahead(signs) {
        SignKind::Number | SignKind::One => {
            let (value, rest) = number(signs)?;
            Ok((Atom::Number(value), rest))
        }
        SignKind::Name => {
            let (text, rest) = name(alloc, signs)?;
            Ok((Atom::Name(text), rest))
        }
        _ => Err(Stop::Unexpected(signs.len())),
    }
}

#[tactic(auto, unfolding(crate::specs::Reading::and_then, crate::specs::SumReading::sum_part))]
fn sum_part(alloc: Global, signs: &[Sign]) -> Read<SumPart>
    ensures { Gives (λ x. (x.0, x.1.now)) result (spec.sum_part signs.now) }
{
    let minus = match ahead(signs) {
        SignKind::Mark(Mark::PlusSign) => false,
        SignKind::Mark(Mark::MinusSign) => true,
        _ => return Err(Stop::Unexpected(signs.len())),
    };
    let (atom, rest) = atom(alloc, past(signs))?;
    Ok((SumPart { minus, atom }, rest))
}

#[tactic(auto, unfolding(crate::specs::SumReading::goes_on))]
fn goes_on(signs: &[Sign]) -> bool
    ensures { result ≡ spec.goes_on (ahead signs.now) }
{
    matches!(
        ahead(signs),
        SignKind::Mark(Mark::PlusSign | Mark::MinusSign)
    )
}

#[tactic(auto, using(crate::proofs::Repeats::loops), unfolding(crate::specs::SumReading::sum_parts))]
fn sum_parts(alloc: Global, signs: &[Sign]) -> Read<Items<SumPart>>
    ensures { Gives (λ x. (x.0, x.1.now)) result (spec.sum_parts signs.now) }
{
    let mut found = Items::new(alloc);
    let mut rest = signs;
    for _turn in 0..signs.len() {
        if !goes_on(rest) {
            return Ok((found, rest));
        }
        let (part, next) = sum_part(alloc, rest)?;
        found.push(part)?;
        rest = next;
    }
    Ok((found, rest))
}

/// What follows the first atom of a sum.
#[tactic(auto, unfolding(crate::specs::Reading::and_then, crate::specs::SumReading::sum_behind))]
pub fn sum_behind(alloc: Global, negative: bool, first: Atom, signs: &[Sign]) -> Read<Sum>
    ensures { Gives (λ x. (x.0, x.1.now)) result (spec.sum_behind negative first signs.now) }
{
    let (rest, signs) = sum_parts(alloc, signs)?;
    Ok((
        Sum {
            negative,
            first,
            rest,
        },
        signs,
    ))
}

#[tactic(auto, unfolding(crate::specs::Reading::and_then, crate::specs::SumReading::sum_from))]
fn sum_from(alloc: Global, negative: bool, signs: &[Sign]) -> Read<Sum>
    ensures { Gives (λ x. (x.0, x.1.now)) result (spec.sum_from negative signs.now) }
{
    let (first, rest) = atom(alloc, signs)?;
    sum_behind(alloc, negative, first, rest)
}

#[tactic(auto, unfolding(crate::specs::SumReading::sum))]
pub fn sum(alloc: Global, signs: &[Sign]) -> Read<Sum>
    ensures { Gives (λ x. (x.0, x.1.now)) result (spec.sum signs.now) }
{
    if sees(Mark::MinusSign, signs) {
        sum_from(alloc, true, past(signs))
    } else {
        sum_from(alloc, false, signs)
    }
}

#[tactic(auto, unfolding(crate::specs::Reading::and_then, crate::specs::SumReading::val))]
pub fn val(alloc: Global, signs: &[Sign]) -> Read<Val>
    ensures { Gives (λ x. (x.0, x.1.now)) result (spec.val signs.now) }
{
    match ahead(signs) {
        SignKind::Mark(Mark::True) => Ok((Val::True, past(signs))),
        SignKind::Mark(Mark::False) => Ok((Val::False, past(signs))),
        _ => {
            let (sum, rest) = sum(alloc, signs)?;
            Ok((Val::Sum(sum), rest))
        }
    }
}

#[tactic(auto, unfolding(crate::specs::Reading::and_then, crate::specs::SumReading::range))]
pub fn range(alloc: Global, room: usize, signs: &[Sign]) -> Read<Range>
    ensures { Gives (λ x. (x.0, x.1.now)) result (spec.range room signs.now) }
{
    let (array, rest) = name(alloc, signs)?;
    let rest = open_bracket(room, Mark::OpenBracket, rest)?;
    let (low, rest) = sum(alloc, rest)?;
    let rest = expect(Mark::Range, rest)?;
    let (high, rest) = sum(alloc, rest)?;
    let rest = expect(Mark::CloseBracket, rest)?;
    Ok((Range { array, low, high }, rest))
}

#[tactic(auto, unfolding(crate::specs::Reading::and_then, crate::specs::SumReading::index))]
pub fn index(alloc: Global, room: usize, signs: &[Sign]) -> Read<Sum>
    ensures { Gives (λ x. (x.0, x.1.now)) result (spec.index room signs.now) }
{
    let rest = open_bracket(room, Mark::OpenBracket, signs)?;
    let (index, rest) = sum(alloc, rest)?;
    let rest = expect(Mark::CloseBracket, rest)?;
    Ok((index, rest))
}

#[tactic(auto, unfolding(crate::specs::Reading::and_then, crate::specs::SumReading::cell))]
pub fn cell(alloc: Global, room: usize, signs: &[Sign]) -> Read<Cell>
    ensures { Gives (λ x. (x.0, x.1.now)) result (spec.cell room signs.now) }
{
    let (array, rest) = name(alloc, signs)?;
    let (index, rest) = index(alloc, room, rest)?;
    Ok((Cell { array, index }, rest))
}

#[tactic(auto, unfolding(crate::specs::SumReading::kind))]
pub fn kind(signs: &[Sign]) -> Read<Kind>
    ensures { Gives (λ x. (x.0, x.1.now)) result (spec.kind signs.now) }
{
    match ahead(signs) {
        SignKind::Mark(Mark::I64) => Ok((Kind::I64, past(signs))),
        SignKind::Mark(Mark::U64) => Ok((Kind::U64, past(signs))),
        SignKind::Mark(Mark::Bool) => Ok((Kind::Bool, past(signs))),
        _ => Err(Stop::Unexpected(signs.len())),
    }
}

/// A name and its kind.
#[tactic(auto, unfolding(crate::specs::Reading::and_then, crate::specs::SumReading::typed))]
pub fn typed(alloc: Global, signs: &[Sign]) -> Read<(Name, Kind)>
    ensures { Gives (λ x. (x.0, x.1.now)) result (spec.typed signs.now) }
{
    let (text, rest) = name(alloc, signs)?;
    let rest = expect(Mark::Colon, rest)?;
    let (kind, rest) = kind(rest)?;
    Ok(((text, kind), rest))
}
