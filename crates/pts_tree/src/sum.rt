//! Sums of numbers and constants, and what they measure: ranges and cells of arrays.

use crate::name::Name;
use sqlite_items::Items;

/// A number or a constant.
#[derive(Debug, Drop)]
pub enum Atom {
    Number(u64),
    Name(Name),
}

/// An atom that is added or, with `minus`, subtracted.
#[derive(Debug, Drop)]
pub struct SumPart {
    pub minus: bool,
    pub atom: Atom,
}

/// A sum that is evaluated exactly, from left to right; with `negative` a `-` stands before its first atom.
#[derive(Debug, Drop)]
pub struct Sum {
    pub negative: bool,
    pub first: Atom,
    pub rest: Items<SumPart>,
}

/// A value of any kind.
#[derive(Debug, Drop)]
pub enum Val {
    Sum(Sum),
    True,
    False,
}

/// The cells of an array from `low` on and before `high`.
#[derive(Debug, Drop)]
pub struct Range {
    pub array: Name,
    pub low: Sum,
    pub high: Sum,
}

/// One cell of an array.
#[derive(Debug, Drop)]
pub struct Cell {
    pub array: Name,
    pub index: Sum,
}
