//! Values, what an evaluation may throw, and want of memory.

ghost use Rattle.std.specs.Prelude.{◌≡◌};
ghost use Rattle.pts_types.specs.declared.value.Value.TheVariants.{U64};

use std::alloc::AllocError;

/// The kind of a value.
#[derive(Clone, Copy, Debug, PartialEq, Eq, Hash)]
pub enum Kind {
    I64,
    U64,
    Bool,
}

/// A value beside its kind. The default is 0 of kind `u64`.
#[derive(Clone, Copy, Debug, PartialEq, Eq, Hash)]
pub enum Value {
    I64(i64),
    U64(u64),
    Bool(bool),
}

impl Default for Value {
    ghost is_default = { λ value. value ≡ U64 0 };

    fn default() -> Self {
        Value::U64(0)
    }
}

/// What an evaluation throws: a code of the script from 0 to 999, or a fault of the arithmetic.
#[derive(Clone, Copy, Debug, PartialEq, Eq, Hash)]
pub enum Thrown {
    Code(u16),
    Overflow,
    DivZero,
}

/// There was no memory. It may come from every call that has it as an answer.
#[derive(Clone, Copy, Debug, PartialEq, Eq, Hash)]
pub struct NoMemory;

impl From<AllocError> for NoMemory {
    fn from(_: AllocError) -> Self {
        NoMemory
    }
}
