//! The parts of calls and of clauses.

ghost use Rattle.std.specs.Prelude.{◌≡◌, ◌-◌, ◌^◌, ◌≤◌, IfSome, IsTrue, count_by, option_map};
ghost use Rattle.pts_tree.specs.Spelling.{if_there};
ghost use Rattle.pts_rules.specs.Known as known;
ghost use Rattle.pts_starts.specs.Starts as starts;
ghost use Rattle.pts_points.specs.Inside.{HasRoom};
ghost use Rattle.pts_points.specs.Points as points;
ghost use Rattle.pts_lowering.specs.Fitting.{IsIndex, HasNumbers, IsRange, IsWord};
ghost use Rattle.pts_lowering.specs.Forms as spec;

use crate::forms::{CellIndex, CellRange, Operation};
use pts_kinds::kind_of_array;
use pts_limits::number;
use pts_points::array_at;
use pts_rules::Scope;
use pts_starts::value_of_val;
use pts_tree::{Cell, Name, Op, Range, Sum, Val};
use pts_types::{Kind, Value};

fn word_of(scope: &Scope, sum: &Sum) -> u32
    requires { IsWord (known.number scope.now sum.now) }
    ensures { result ≡ known.natural (known.number scope.now sum.now) }
{
    number(scope, sum) as u32
}

/// The cells of a range.
pub fn lower_range(scope: &Scope, range: &Range) -> CellRange
    requires room { HasRoom scope.now }
    requires range { IsRange scope.now range.now }
    ensures { result ≡ spec.range_of scope.now range.now }
{
    CellRange {
        array: array_at(scope, &range.array),
        low: word_of(scope, &range.low),
        high: word_of(scope, &range.high),
    }
}

/// A range where there is one.
pub fn lower_optional_range(scope: &Scope, range: &Option<Range>) -> Option<CellRange>
    requires room { HasRoom scope.now }
    requires range { IfSome range.now (IsRange scope.now) }
    ensures { result ≡ option_map (spec.range_of scope.now) range.now }
{
    match range {
        Some(range) => Some(lower_range(scope, range)),
        None => None,
    }
}

/// A range that each call of its form has.
pub fn lower_needed_range(scope: &Scope, range: &Option<Range>) -> CellRange
    requires room { HasRoom scope.now }
    requires range { IfSome range.now (IsRange scope.now) }
    ensures { result ≡ spec.needed_range scope.now range.now }
{
    match range {
        Some(range) => lower_range(scope, range),
        None => CellRange {
            array: 0,
            low: 0,
            high: 0,
        },
    }
}

/// One cell.
pub fn lower_cell(scope: &Scope, cell: &Cell) -> CellIndex
    requires room { HasRoom scope.now }
    requires index { IsIndex scope.now cell.now }
    ensures { result ≡ spec.cell_of scope.now cell.now }
{
    CellIndex {
        array: array_at(scope, &cell.array),
        index: word_of(scope, &cell.index),
    }
}

/// A cell where there is one.
pub fn lower_optional_cell(scope: &Scope, cell: &Option<Cell>) -> Option<CellIndex>
    requires room { HasRoom scope.now }
    requires index { IfSome cell.now (IsIndex scope.now) }
    ensures { result ≡ option_map (spec.cell_of scope.now) cell.now }
{
    match cell {
        Some(cell) => Some(lower_cell(scope, cell)),
        None => None,
    }
}

/// The number of a function.
#[tactic(auto, using(crate::proofs::Numbering::function_few))]
pub fn lower_function(scope: &Scope, name: &Name) -> u32
    requires { HasNumbers scope.now }
    ensures { result ≡ spec.function_at scope.now name.now }
{
    match scope.function_number(name) {
        Some(number) => number as u32,
        None => 0,
    }
}

/// The number of a function where there is one.
pub fn lower_optional_function(scope: &Scope, name: &Option<Name>) -> Option<u32>
    requires { HasNumbers scope.now }
    ensures { result ≡ option_map (spec.function_at scope.now) name.now }
{
    match name {
        Some(name) => Some(lower_function(scope, name)),
        None => None,
    }
}

/// The number of a function that each call of its form has.
pub fn lower_needed_function(scope: &Scope, name: &Option<Name>) -> u32
    requires { HasNumbers scope.now }
    ensures { result ≡ spec.needed_function scope.now name.now }
{
    match name {
        Some(name) => lower_function(scope, name),
        None => 0,
    }
}

/// An operation.
pub fn lower_operation(scope: &Scope, op: &Op) -> Operation
    requires { HasNumbers scope.now }
    ensures { result ≡ spec.operation_of scope.now op.now }
{
    match op {
        Op::Table(op) => Operation::Table(*op),
        Op::Name(name) => Operation::Function(lower_function(scope, name)),
    }
}

/// A value where there is one.
pub fn lower_optional_val(scope: &Scope, kind: Kind, val: &Option<Val>) -> Option<Value>
    requires { IsTrue (if_there (known.val_fits scope.now kind) val.now) }
    ensures { result ≡ option_map (starts.value_of_val scope.now kind) val.now }
{
    match val {
        Some(val) => Some(value_of_val(scope, kind, val)),
        None => None,
    }
}

/// The kind of an array's elements.
pub fn kind_at(scope: &Scope, name: &Name) -> Kind
    ensures { result ≡ points.kind_at scope.now name.now }
{
    kind_of_array(scope, name).unwrap_or(Kind::U64)
}
