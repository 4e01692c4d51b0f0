//! Loops: their clauses and the statements of their bodies.

use crate::call::Op;
use crate::expr::{Expr, Place};
use crate::name::Name;
use crate::sum::{Cell, Sum, Val};
use pts_types::{Kind, Policy, ScalarOp};
use sqlite_items::Items;

/// A loop over the numbers from `low` on and before `high`, `step` apart.
#[derive(Debug, Drop)]
pub struct Loop {
    pub policy: Policy,
    pub index: Name,
    pub low: Sum,
    pub high: Sum,
    pub step: Option<Sum>,
    pub clauses: Items<Clause>,
    pub body: Items<BodyStmt>,
}

/// A reduction or an induction of a loop.
#[derive(Debug, Drop)]
pub enum Clause {
    Reduce(ReduceClause),
    Induct(InductClause),
}

/// A reduction: what the body gives to `view` is combined into `cell`.
#[derive(Debug, Drop)]
pub struct ReduceClause {
    pub cell: Cell,
    pub op: Op,
    pub identity: Option<Val>,
    pub view: Name,
}

/// An induction: a value that grows by `step` from position to position.
#[derive(Debug, Drop)]
pub struct InductClause {
    pub name: Name,
    pub kind: Kind,
    pub initial: Initial,
    pub step: Option<Sum>,
}

/// What an induction begins with; a cell also takes its last value.
#[derive(Debug, Drop)]
pub enum Initial {
    Val(Val),
    Cell(Cell),
}

/// A statement of a loop's body.
#[derive(Debug, Drop)]
pub enum BodyStmt {
    Assign(Place, Expr),
    Let(Name, Expr),
    /// `~=`: the value is given to a view.
    Combine(Name, Expr),
    /// The condition, its branch, and the other one where there is one.
    If(Expr, Items<BodyStmt>, Option<Items<BodyStmt>>),
    VecOff(Items<BodyStmt>),
    Ordered(Place, ScalarOp, Expr),
}
