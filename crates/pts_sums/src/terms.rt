//! What is summed: items, and the operation that combines two values.

ghost use Rattle.std.specs.Prelude.{◌≡◌, ◌<◌, Option as Maybe, Some, List, length, slice_get};
ghost use Rattle.pts_types.specs.declared.value.Value.{Value as Cell};

use pts_types::Value;

/// The operation of a call.
pub(crate) trait Combining {
    ghost op: { Self → Cell → Cell → Maybe Cell };

    /// What the operation makes of two values; None where it throws.
    fn combine(&self, x: Value, y: Value) -> Option<Value>
        ensures { result ≡ op self.now x y };
}

/// What an element brings to a sum: a value, or None for a throw.
pub(crate) trait Transforming: Combining {
    ghost item: { Self → Cell → Maybe Cell };

    fn item_of(&self, element: Value) -> Option<Value>
        ensures { result ≡ item self.now element };
}

/// The items of a call, by their positions: what the elements at each position bring.
pub(crate) trait Terms: Combining {
    /// What all calls ask of it.
    ghost condition: { Self → Type 0 };

    ghost items: { Self → List (Maybe Cell) };

    /// How many positions there are.
    fn count(&self) -> u32
        requires { condition self.now }
        ensures { result ≡ length (items self.now) };

    /// The item at a position.
    fn item(&self, at: u32) -> Option<Value>
        requires condition { condition self.now }
        requires within { at < length (items self.now) }
        ensures { Some result ≡ slice_get (items self.now) at };
}
