//! Scripts and their items.

use crate::block::Block;
use crate::call::Call;
use crate::expr::Expr;
use crate::loops::Loop;
use crate::name::Name;
use crate::sum::{Sum, Val};
use pts_types::Kind;
use sqlite_items::Items;

/// A script: the version of the language that its header names, and its items in order.
#[derive(Debug, Drop)]
pub struct Script {
    pub version: u64,
    pub items: Items<Item>,
}

/// A declaration or a statement.
#[derive(Debug, Drop)]
pub enum Item {
    Const(ConstDecl),
    Array(ArrayDecl),
    Function(FunctionDecl),
    Call(Call),
    Loop(Loop),
    Block(Block),
    Print(Name),
}

/// A constant.
#[derive(Debug, Drop)]
pub struct ConstDecl {
    pub name: Name,
    pub value: Sum,
}

/// An array, its length and what its cells start with.
#[derive(Debug, Drop)]
pub struct ArrayDecl {
    pub name: Name,
    pub kind: Kind,
    pub length: Sum,
    pub start: Start,
}

/// A function with at least one parameter.
#[derive(Debug, Drop)]
pub struct FunctionDecl {
    pub name: Name,
    pub params: Items<Param>,
    pub kind: Kind,
    pub body: Expr,
}

/// A parameter of a function.
#[derive(Debug, Drop)]
pub struct Param {
    pub name: Name,
    pub kind: Kind,
}

/// What an array's cells start with.
#[derive(Debug, Drop)]
pub enum Start {
    /// Each cell's value, at least one.
    List(Items<Val>),
    Fill(Val),
    /// The first cell's value, and by how much each cell is greater than the one before it.
    Iota(Sum, Sum),
    /// Mixed bits from a seed.
    Mix(Sum),
}
