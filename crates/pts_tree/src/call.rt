//! Calls of algorithms.

use crate::name::Name;
use crate::sum::{Cell, Range, Val};
use pts_types::{Policy, ScalarOp};

/// The operation of a sum: one of the seven that have a word, or a function.
#[derive(Debug, Drop)]
pub enum Op {
    Table(ScalarOp),
    Name(Name),
}

/// The algorithm of a call, named as in the standard library.
#[derive(Clone, Copy, Debug, PartialEq, Eq, Hash)]
pub enum CallForm {
    ForEach,
    Transform,
    FindIf,
    CountIf,
    Reduce,
    TransformReduce,
    InclusiveScan,
    ExclusiveScan,
    TransformInclusiveScan,
    TransformExclusiveScan,
}

/// A call of an algorithm. Which parts it has besides its first range is a matter of its form.
#[derive(Debug, Drop)]
pub struct Call {
    pub form: CallForm,
    pub policy: Policy,
    pub first: Range,
    pub second: Option<Range>,
    /// The range that is written.
    pub target: Option<Range>,
    pub init: Option<Val>,
    pub op: Option<Op>,
    pub function: Option<Name>,
    /// The cell that the answer is put into.
    pub store: Option<Cell>,
}
