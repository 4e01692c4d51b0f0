//! What names stand for.

use pts_types::Kind;
use sqlite_items::Items;

/// A function as its callers see it.
#[derive(Debug, Drop)]
pub struct Signature {
    pub params: Items<Kind>,
    pub kind: Kind,
    /// How deep its calls nest, from 1.
    pub depth: u32,
    /// Its nodes when its calls are expanded.
    pub size: u32,
}

/// What a name stands for.
#[derive(Debug, Drop)]
pub enum Meaning {
    /// A number from -9223372036854775808 to 18446744073709551615.
    Constant(i128),
    /// The kind of an array's elements, and how many there are.
    Array(Kind, i64),
    Function(Signature),
    /// A parameter, a loop index, an induction or a `let`.
    Value(Kind),
    /// The accumulator of a reduction.
    View(Kind),
}
