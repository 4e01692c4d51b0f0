//! The steps of reading: what is read is given with the signs that follow it.

ghost use Rattle.std.specs.Prelude.{◌≡◌, ◌<◌, ◌∷◌, IfOk, OnOk};
ghost use Rattle.pts_tree.specs.declared.sign.SignKind.TheVariants as kinds;
ghost use Rattle.pts_tree.specs.Grammar.{same};
ghost use Rattle.pts_parse.specs.Reading as spec;
ghost use Rattle.pts_parse.specs.Reading.{Gives};
ghost use Rattle.pts_parse.specs.declared.reader.Stop.TheVariants.{NoMemory};

use pts_tree::{Mark, Name, Sign, SignKind};
use sqlite_items::Items;
use std::alloc::{AllocError, AllocFailed, Global};

/// Why no part was read: the sign with which so many are left does not go on, or opens a bracket too many, or there was
/// no memory.
#[derive(Clone, Copy, Debug, PartialEq, Eq)]
pub enum Stop {
    Unexpected(usize),
    Nesting(usize),
    NoMemory,
}

impl From<AllocError> for Stop {
    ghost from_gives = { λ _ e. e ≡ NoMemory };

    fn from(_: AllocError) -> Self {
        Stop::NoMemory
    }
}

impl<T: Drop> From<AllocFailed<T>> for Stop {
    ghost from_gives = { λ _ e. e ≡ NoMemory };

    fn from(_: AllocFailed<T>) -> Self {
        Stop::NoMemory
    }
}

/// A part and the signs behind it.
pub type Read<'a, T> = Result<(T, &'a [Sign]), Stop>;

/// The kind of the first sign.
pub fn ahead(signs: &[Sign]) -> SignKind
    ensures { result ≡ spec.ahead signs.now }
{
    match signs {
        [first, ..] => first.kind(),
        [] => SignKind::End,
    }
}

/// The signs behind the first.
pub fn past(signs: &[Sign]) -> &[Sign]
    ensures { result.now ≡ spec.past signs.now }
{
    match signs {
        [_, rest @ ..] => rest,
        [] => signs,
    }
}

/// Whether the first sign is this word or symbol.
#[tactic(auto, using(crate::proofs::SameMarks::same_marks))]
pub fn sees(mark: Mark, signs: &[Sign]) -> bool
    ensures { result ≡ same (kinds.Mark mark) (spec.ahead signs.now) }
{
    match ahead(signs) {
        SignKind::Mark(found) => mark == found,
        _ => false,
    }
}

#[tactic(auto, unfolding(crate::specs::Reading::expect))]
pub fn expect(mark: Mark, signs: &[Sign]) -> Result<&[Sign], Stop>
    ensures { Gives (λ x. x.now) result (spec.expect mark signs.now) }
{
    if sees(mark, signs) {
        Ok(past(signs))
    } else {
        Err(Stop::Unexpected(signs.len()))
    }
}

#[tactic(auto, unfolding(crate::specs::Reading::and_then, crate::specs::Reading::open_bracket))]
pub fn open_bracket(room: usize, mark: Mark, signs: &[Sign]) -> Result<&[Sign], Stop>
    ensures value { Gives (λ x. x.now) result (spec.open_bracket room mark signs.now) }
    ensures room { OnOk result (0 < room) }
{
    let rest = expect(mark, signs)?;
    if room == 0 {
        return Err(Stop::Nesting(signs.len()));
    }
    Ok(rest)
}

#[tactic(auto, unfolding(crate::specs::Reading::name))]
pub fn name(alloc: Global, signs: &[Sign]) -> Read<Name>
    ensures { Gives (λ x. (x.0, x.1.now)) result (spec.name signs.now) }
{
    match signs {
        [first, rest @ ..] => match first.name() {
            Some(text) => Ok((Name::new(text.to_string(alloc)?), rest)),
            None => Err(Stop::Unexpected(signs.len())),
        },
        [] => Err(Stop::Unexpected(0)),
    }
}

#[tactic(auto, unfolding(crate::specs::Reading::number))]
pub fn number(signs: &[Sign]) -> Read<u64>
    ensures { Gives (λ x. (x.0, x.1.now)) result (spec.number signs.now) }
{
    match signs {
        [first, rest @ ..] => match first.number() {
            Some(value) => Ok((value, rest)),
            None => Err(Stop::Unexpected(signs.len())),
        },
        [] => Err(Stop::Unexpected(0)),
    }
}

/// A first element and more behind it.
pub fn listed<T: Drop>(alloc: Global, first: T, more: Items<T>) -> Result<Items<T>, AllocError>
    ensures { IfOk result (λ xs. xs ≡ first ∷ more) }
{
    let mut all = Items::new(alloc);
    all.push(first)?;
    all.append(more)?;
    Ok(all)
}
