//! A place for a value, which may be empty.

ghost use Rattle.std.specs.Prelude.{◌≡◌, Some};
ghost use Rattle.pts_store.specs.Stores.{shown};
ghost use Rattle.pts_store.specs.Writes.{held};

use pts_types::Value;

/// A value, or nothing. It takes 16 bytes as a `Value` does, where an `Option<Value>` takes 24.
#[derive(Clone, Copy, Debug)]
pub enum Slot {
    I64(i64),
    U64(u64),
    Bool(bool),
    Nothing,
}

impl Slot {
    /// A slot with this value.
    pub fn of(value: Value) -> Slot
        ensures { held result ≡ Some value }
    {
        match value {
            Value::I64(z) => Slot::I64(z),
            Value::U64(n) => Slot::U64(n),
            Value::Bool(b) => Slot::Bool(b),
        }
    }

    /// The value, if there is one.
    pub fn value(self) -> Option<Value>
        ensures { result ≡ held self }
    {
        match self {
            Slot::I64(z) => Some(Value::I64(z)),
            Slot::U64(n) => Some(Value::U64(n)),
            Slot::Bool(b) => Some(Value::Bool(b)),
            Slot::Nothing => None,
        }
    }

    /// The value, or else the one that is given.
    pub fn over(self, earlier: Value) -> Value
        ensures { result ≡ shown (held self) earlier }
    {
        match self {
            Slot::I64(z) => Value::I64(z),
            Slot::U64(n) => Value::U64(n),
            Slot::Bool(b) => Value::Bool(b),
            Slot::Nothing => earlier,
        }
    }
}
