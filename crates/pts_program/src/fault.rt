//! The first fault of a script.

use pts_types::NoMemory;
use thiserror::Error;

/// The rule that a script breaks first, and the number of the item that breaks it, from 1. The rules stand in their order.
#[derive(Clone, Copy, Debug, PartialEq, Eq, Error)]
pub enum BuildFault {
    /// A name is used that nothing declares.
    #[error("item {0} uses a name that nothing declares")]
    Unknown(u32),
    /// A name is declared again.
    #[error("item {0} declares a name again")]
    Twice(u32),
    /// A name, a number or an expression is of another sort or kind than its place asks.
    #[error("item {0} has a name, a number or an expression of another sort or kind than its place asks")]
    Mistyped(u32),
    /// Functions call each other, or blocks stand inside each other, too deep.
    #[error("item {0} is nested too deep")]
    TooDeep(u32),
    /// A limit is passed.
    #[error("item {0} passes a limit")]
    TooMany(u32),
    /// A loop's step is 0 or leads away from its end.
    #[error("item {0} has a step that is 0 or leads away from the loop's end")]
    BadStep(u32),
    /// A range, or a loop without a step, ends before its start.
    #[error("item {0} has a range that ends before its start")]
    BackwardRange(u32),
    /// A list is not as long as its array, or the ranges of a call are not of one length.
    #[error("item {0} has a list or ranges of different lengths")]
    LengthsDiffer(u32),
    /// An operation of the table has an identity, or a function has none.
    #[error("item {0} gives an identity to an operation of the table, or none to a function")]
    BadIdentity(u32),
    /// An index is not a multiple of the loop index and a number.
    #[error("item {0} has an index that is no multiple of the loop index and a number")]
    NotAffine(u32),
    /// A cell is not in its array, at this position and at no one before.
    #[error("item {item} leaves an array at position {position}")]
    OutOfRange { item: u32, position: u64 },
    /// There was no memory.
    #[error("there is no memory")]
    NoMemory,
}

impl BuildFault {
    ghost use Rattle.std.specs.Prelude.{◌≡◌};
    ghost use Rattle.pts_program.specs.RuleNames as spec;

    /// The name of the rule that is broken, as the line of a refusal has it.
    pub fn rule(self) -> &'static str
        ensures { result.now ≡ spec.rule_name self }
    {
        match self {
            BuildFault::Unknown(_) => "unknown",
            BuildFault::Twice(_) => "twice",
            BuildFault::Mistyped(_) => "mistyped",
            BuildFault::TooDeep(_) => "too_deep",
            BuildFault::TooMany(_) => "too_many",
            BuildFault::BadStep(_) => "bad_step",
            BuildFault::BackwardRange(_) => "backward_range",
            BuildFault::LengthsDiffer(_) => "lengths_differ",
            BuildFault::BadIdentity(_) => "bad_identity",
            BuildFault::NotAffine(_) => "not_affine",
            BuildFault::OutOfRange { .. } => "out_of_range",
            BuildFault::NoMemory => "no_memory",
        }
    }

    /// The number of the item that breaks it, from 1; 0 where there was no memory.
    pub fn item(self) -> u32
        ensures { result ≡ spec.item_of self }
    {
        match self {
            BuildFault::Unknown(item)
            | BuildFault::Twice(item)
            | BuildFault::Mistyped(item)
            | BuildFault::TooDeep(item)
            | BuildFault::TooMany(item)
            | BuildFault::BadStep(item)
            | BuildFault::BackwardRange(item)
            | BuildFault::LengthsDiffer(item)
            | BuildFault::BadIdentity(item)
            | BuildFault::NotAffine(item)
            | BuildFault::OutOfRange { item, .. } => item,
            BuildFault::NoMemory => 0,
        }
    }

    /// The position at which a cell is not in its array, where that is the rule.
    pub fn position(self) -> Option<u64>
        ensures { result ≡ spec.position_of self }
    {
        match self {
            BuildFault::OutOfRange { position, .. } => Some(position),
            _ => None,
        }
    }
}

impl From<NoMemory> for BuildFault {
    ghost use Rattle.std.specs.Prelude.{◌≡◌};
    ghost use Rattle.pts_program.specs.declared.fault.BuildFault.TheVariants as faults;

    ghost from_gives = { λ _ fault. fault ≡ faults.NoMemory };

    fn from(_: NoMemory) -> Self {
        BuildFault::NoMemory
    }
}
