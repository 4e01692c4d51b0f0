//! Calls and loops with numbers in place of names.

use pts_types::{Kind, Policy, ScalarOp, Value};
use sqlite_items::Items;

/// The cells of an array from `low` on and before `high`; `low` is not above `high`.
#[derive(Clone, Copy, Debug, PartialEq, Eq)]
pub struct CellRange {
    /// The number of the array, from 0 in the order of the declarations.
    pub array: u32,
    pub low: u32,
    pub high: u32,
}

/// One cell of an array.
#[derive(Clone, Copy, Debug, PartialEq, Eq)]
pub struct CellIndex {
    pub array: u32,
    pub index: u32,
}

/// An operation on two values: one of the seven that have a word, or a function by its number.
#[derive(Clone, Copy, Debug, PartialEq, Eq)]
pub enum Operation {
    Table(ScalarOp),
    Function(u32),
}

/// `for_each` ([alg.foreach]): each cell becomes what the function gives for it.
#[derive(Clone, Copy, Debug, PartialEq, Eq)]
pub struct ForEach {
    pub policy: Policy,
    pub range: CellRange,
    pub function: u32,
}

/// `transform` ([alg.transform]) of one range or of two; the ranges have one length.
#[derive(Clone, Copy, Debug, PartialEq, Eq)]
pub struct Transform {
    pub policy: Policy,
    pub first: CellRange,
    pub second: Option<CellRange>,
    pub target: CellRange,
    pub function: u32,
}

/// `find_if` ([alg.find]) or `count_if` ([alg.count]).
#[derive(Clone, Copy, Debug, PartialEq, Eq)]
pub struct Search {
    pub policy: Policy,
    pub range: CellRange,
    pub predicate: u32,
    /// The cell that the answer is put into.
    pub into: Option<CellIndex>,
}

/// `reduce` ([reduce]) or, with a function or a second range, `transform_reduce` ([transform.reduce]). Two ranges without a
/// function are multiplied.
#[derive(Clone, Copy, Debug, PartialEq, Eq)]
pub struct Reduction {
    pub policy: Policy,
    pub first: CellRange,
    pub second: Option<CellRange>,
    /// The function of the elements at a position.
    pub transform: Option<u32>,
    pub initial: Value,
    pub operation: Operation,
    /// The cell that the answer is put into.
    pub into: Option<CellIndex>,
}

/// Whether the element at a position belongs to the sum at that position ([inclusive.scan]) or not ([exclusive.scan]).
#[derive(Clone, Copy, Debug, PartialEq, Eq)]
pub enum ScanOrder {
    Inclusive,
    Exclusive,
}

/// One of the four scans.
#[derive(Clone, Copy, Debug, PartialEq, Eq)]
pub struct Scan {
    pub policy: Policy,
    pub order: ScanOrder,
    pub source: CellRange,
    /// The function of each element ([transform.inclusive.scan], [transform.exclusive.scan]).
    pub transform: Option<u32>,
    pub initial: Option<Value>,
    pub operation: Operation,
    pub target: CellRange,
}

/// A reduction of a loop ([parallel.alg.reductions]).
#[derive(Clone, Copy, Debug, PartialEq, Eq)]
pub struct LoopReduction {
    pub cell: CellIndex,
    pub operation: Operation,
    /// That of a function; one of the table has the table's.
    pub identity: Option<Value>,
}

/// What an induction begins with; a cell also takes its last value.
#[derive(Clone, Copy, Debug, PartialEq, Eq)]
pub enum InitialValue {
    Value(Value),
    Cell(CellIndex),
}

/// An induction of a loop ([parallel.alg.inductions]); its initial value and its step are of its kind.
#[derive(Clone, Copy, Debug, PartialEq, Eq)]
pub struct Induction {
    pub kind: Kind,
    pub initial: InitialValue,
    pub step: Value,
}

/// A clause of a loop's head.
#[derive(Clone, Copy, Debug, PartialEq, Eq)]
pub enum LoopClause {
    Reduction(LoopReduction),
    Induction(Induction),
}

/// The head of a loop ([parallel.alg.for.loop]): at position p the index is `first + p * step`.
#[derive(Debug, Drop)]
pub struct LoweredLoop {
    pub policy: Policy,
    pub first: i64,
    pub step: i64,
    pub positions: u32,
    /// In the order of the text.
    pub clauses: Items<LoopClause>,
}

/// A call of an algorithm, or a loop.
#[derive(Debug, Drop)]
pub enum LoweredCall {
    ForEach(ForEach),
    Transform(Transform),
    FindIf(Search),
    CountIf(Search),
    Reduce(Reduction),
    Scan(Scan),
    Loop(LoweredLoop),
}
