//! The cells of one array.

ghost use Rattle.std.specs.Prelude.{◌≡◌, ◌+◌, ◌*◌, ◌%◌, ◌<◌, ◌^◌, IsTrue, IfOk, List, map, replicate, ℤ};
ghost use Rattle.std.specs.List.{list_all, range_with_len};
ghost use Rattle.pts_types.specs.declared.value.Kind.TheVariants as kinds;
ghost use Rattle.pts_types.specs.declared.value.Value.TheVariants as values;
ghost use Rattle.pts_rules.specs.Known as known;
ghost use Rattle.pts_rules.specs.Mistyped.{iota_cell, iota_right, start_right};
ghost use Rattle.pts_starts.specs.Starts as spec;

use crate::values::{value_of_val, value_with};
use pts_limits::number;
use pts_rules::Scope;
use pts_tree::{Start, Sum, Val};
use pts_types::{Kind, NoMemory, Value};
use sqlite_items::Items;
use std::alloc::{AllocError, Global};

fn list_cells(
    alloc: Global,
    scope: &Scope,
    kind: Kind,
    vals: &[Val],
) -> Result<Items<Value>, AllocError>
    requires { IsTrue (list_all (known.val_fits scope.now kind) vals.now) }
    ensures { IfOk result (λ cells. cells ≡ map (spec.value_of_val scope.now kind) vals.now) }
{
    let mut cells = Items::new(alloc);
    for val in vals {
        cells.push(value_of_val(scope, kind, val))?;
    }
    Ok(cells)
}

#[tactic(auto, using(crate::proofs::Cells::same_more))]
fn fill_cells(alloc: Global, value: Value, length: usize) -> Result<Items<Value>, AllocError>
    ensures { IfOk result (λ cells. cells ≡ replicate length value) }
{
    let mut cells = Items::new(alloc);
    for _cell in 0..length {
        cells.push(value)?;
    }
    Ok(cells)
}

#[tactic(auto, using(crate::proofs::Cells::one_more))]
fn iota_u64(alloc: Global, first: u64, step: u64, length: usize) -> Result<Items<Value>, AllocError>
    ensures { IfOk result (λ cells. cells ≡ map (λ j. values.U64 ((first + j * step) % 2 ^ 64)) (range_with_len 0 length)) }
{
    let mut cells = Items::new(alloc);
    let mut value = first;
    for _cell in 0..length {
        cells.push(Value::U64(value))?;
        value = value.wrapping_add(step);
    }
    Ok(cells)
}

#[tactic(auto, using(crate::proofs::Cells::cells_more, crate::proofs::Cells::next_wrapped))]
fn iota_i64(alloc: Global, first: i64, step: i64, length: usize) -> Result<Items<Value>, AllocError>
    requires { IsTrue (list_all (λ j. known.holds kinds.I64 (iota_cell first step j)) (range_with_len 0 length)) }
    ensures { IfOk result (λ cells. cells ≡ map (spec.iota_value kinds.I64 first step) (range_with_len 0 length)) }
{
    let mut cells = Items::new(alloc);
    let mut value = first;
    for _cell in 0..length {
        cells.push(Value::I64(value))?;
        value = value.wrapping_add(step);
    }
    Ok(cells)
}

fn mix_value(seed: u64, cell: usize) -> Value
    ensures { result ≡ spec.mix_value seed cell }
{
    let turns = (cell as u64).wrapping_add(1);
    let y = seed.wrapping_add(turns.wrapping_mul(11400714819323198485));
    Value::U64(y ^ (y >> 32))
}

#[tactic(auto, using(crate::proofs::Cells::one_more))]
fn mix_cells(alloc: Global, seed: u64, length: usize) -> Result<Items<Value>, AllocError>
    ensures { IfOk result (λ cells. cells ≡ map (spec.mix_value seed) (range_with_len 0 length)) }
{
    let mut cells = Items::new(alloc);
    for cell in 0..length {
        cells.push(mix_value(seed, cell))?;
    }
    Ok(cells)
}

#[tactic(auto, using(crate::proofs::Cells::iota_parts))]
fn iota_signed(
    alloc: Global,
    scope: &Scope,
    length: usize,
    first: &Sum,
    step: &Sum,
) -> Result<Items<Value>, AllocError>
    requires { IsTrue (iota_right scope.now kinds.I64 length first.now step.now) }
    ensures { IfOk result (λ cells. cells ≡ map (spec.iota_value kinds.I64 (known.number scope.now first.now) (known.number scope.now step.now)) (range_with_len 0 length)) }
{
    let x = i64_number(scope, first);
    let y = i64_number(scope, step);
    iota_i64(alloc, x, y, length)
}

#[tactic(auto, using(crate::proofs::Cells::u64_parts))]
fn iota_cells(
    alloc: Global,
    scope: &Scope,
    kind: Kind,
    length: usize,
    first: &Sum,
    step: &Sum,
) -> Result<Items<Value>, AllocError>
    requires { IsTrue (iota_right scope.now kind length first.now step.now) }
    ensures { IfOk result (λ cells. cells ≡ map (spec.iota_value kind (known.number scope.now first.now) (known.number scope.now step.now)) (range_with_len 0 length)) }
{
    match kind {
        Kind::I64 => iota_signed(alloc, scope, length, first, step),
        _ => iota_u64(
            alloc,
            u64_number(scope, first),
            u64_number(scope, step),
            length,
        ),
    }
}

#[tactic(auto, using(crate::proofs::Cells::number_holds))]
fn i64_number(scope: &Scope, sum: &Sum) -> i64
    requires { IsTrue (known.sum_is scope.now (known.holds kinds.I64) sum.now) }
    ensures { result ≡ known.number scope.now sum.now }
{
    number(scope, sum) as i64
}

#[tactic(auto, using(crate::proofs::Cells::number_holds))]
fn u64_number(scope: &Scope, sum: &Sum) -> u64
    requires { IsTrue (known.sum_is scope.now (known.holds kinds.U64) sum.now) }
    ensures { result ≡ known.natural (known.number scope.now sum.now) }
{
    number(scope, sum) as u64
}

fn make_cells(
    alloc: Global,
    scope: &Scope,
    kind: Kind,
    length: usize,
    start: &Start,
) -> Result<Items<Value>, AllocError>
    requires { IsTrue (start_right scope.now kind length start.now) }
    ensures { IfOk result (λ cells. cells ≡ spec.start_cells scope.now kind length start.now) }
{
    match start {
        Start::List(vals) => list_cells(alloc, scope, kind, vals.as_slice()),
        Start::Fill(val) => fill_cells(alloc, value_of_val(scope, kind, val), length),
        Start::Iota(first, step) => iota_cells(alloc, scope, kind, length, first, step),
        Start::Mix(seed) => mix_cells(alloc, u64_number(scope, seed), length),
    }
}

/// The cells of an array of a kind and length that may start so.
pub fn start_cells(
    alloc: Global,
    scope: &Scope,
    kind: Kind,
    length: usize,
    start: &Start,
) -> Result<Items<Value>, NoMemory>
    requires { IsTrue (start_right scope.now kind length start.now) }
    ensures { IfOk result (λ cells. cells ≡ spec.start_cells scope.now kind length start.now) }
{
    Ok(make_cells(alloc, scope, kind, length, start)?)
}
