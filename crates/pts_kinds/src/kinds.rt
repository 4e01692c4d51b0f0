//! The kinds that an expression has and that its place may ask.

ghost use Rattle.std.specs.Prelude.{◌≡◌, ◌&&◌};
ghost use Rattle.pts_rules.specs.Kinds as spec;
ghost use Rattle.pts_rules.specs.Known as known;
ghost use Rattle.pts_kinds.specs.Shown.{has_kind, typing_of};

use crate::numbers::holds;
use pts_types::Kind;

/// Some of the kinds.
#[derive(Clone, Copy, Debug, PartialEq, Eq)]
pub struct Kinds {
    pub i64: bool,
    pub u64: bool,
    pub bool: bool,
}

impl Kinds {
    /// All of them or none.
    pub fn all(right: bool) -> Kinds
        ensures { (asked : Kind) → has_kind result asked ≡ right }
    {
        Kinds {
            i64: right,
            u64: right,
            bool: right,
        }
    }

    /// One kind alone.
    pub fn only(kind: Kind) -> Kinds
        ensures { (asked : Kind) → has_kind result asked ≡ known.same_kind asked kind }
    {
        Kinds {
            i64: kind == Kind::I64,
            u64: kind == Kind::U64,
            bool: kind == Kind::Bool,
        }
    }

    /// The kinds that hold the number.
    pub fn holding(number: i128) -> Kinds
        ensures { (asked : Kind) → has_kind result asked ≡ known.holds asked number }
    {
        Kinds {
            i64: holds(Kind::I64, number),
            u64: holds(Kind::U64, number),
            bool: holds(Kind::Bool, number),
        }
    }

    /// Those that are among both.
    pub fn and(self, other: Kinds) -> Kinds
        ensures { (asked : Kind) → has_kind result asked ≡ (has_kind self asked && has_kind other asked) }
    {
        Kinds {
            i64: self.i64 & other.i64,
            u64: self.u64 & other.u64,
            bool: self.bool & other.bool,
        }
    }

    /// Whether the kind is among them.
    pub fn has(self, kind: Kind) -> bool
        ensures { result ≡ has_kind self kind }
    {
        match kind {
            Kind::I64 => self.i64,
            Kind::U64 => self.u64,
            Kind::Bool => self.bool,
        }
    }
}

/// The kinds of an expression.
#[derive(Clone, Copy, Debug, PartialEq, Eq)]
pub struct Typing {
    /// The number that the expression is, where it is a number or the name of a constant.
    pub literal: Option<i128>,
    /// Its own kind; None where it is bare.
    pub own: Option<Kind>,
    /// The kinds that its place may ask.
    pub fits: Kinds,
}

/// What fits nowhere.
#[tactic(auto, using(crate::proofs::Same::same_typing))]
pub fn wrong() -> Typing
    ensures { typing_of result ≡ spec.wrong }
{
    Typing {
        literal: None,
        own: None,
        fits: Kinds::all(false),
    }
}

/// An expression of this kind, where the rest of it is right.
#[tactic(auto, using(crate::proofs::Same::same_typing))]
pub fn typed(kind: Kind, right: bool) -> Typing
    ensures { typing_of result ≡ spec.typed kind right }
{
    Typing {
        literal: None,
        own: Some(kind),
        fits: Kinds::only(kind).and(Kinds::all(right)),
    }
}

/// A bare expression whose value is this number.
#[tactic(auto, using(crate::proofs::Same::same_typing))]
pub fn bare_number(number: i128) -> Typing
    ensures { typing_of result ≡ spec.bare (λ asked. known.holds asked number) }
{
    Typing {
        literal: None,
        own: None,
        fits: Kinds::holding(number),
    }
}

/// A number by itself.
#[tactic(auto, using(crate::proofs::Same::same_typing))]
pub fn number_typing(number: i128) -> Typing
    ensures { typing_of result ≡ spec.literal_of number }
{
    Typing {
        literal: Some(number),
        own: None,
        fits: Kinds::holding(number),
    }
}
