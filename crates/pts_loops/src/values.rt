//! The values of a loop's head at a position.

ghost use Rattle.std.specs.Prelude.{◌≡◌, ◌<◌, ◌^◌, ◌+ℤ◌, ◌*ℤ◌, [], ◌∷◌, ◌++◌, OnOk, length, map, nat_abs, pos, replicate, true, None};
ghost use Rattle.pts_types.specs.declared.value.Kind.TheVariants as kinds;
ghost use Rattle.pts_rules.specs.Known.{holds};
ghost use Rattle.pts_store.specs.Stores.{Store};
ghost use Rattle.pts_passes.specs.Inductions as spec;
ghost use Rattle.std.specs.Option.{option_to_list};
ghost use Rattle.std.specs.List.{list_all, range_with_len};
ghost use Rattle.pts_loops.specs.Kinds.{stays_at};
ghost use Rattle.pts_loops.specs.Turns.{begins_with};

use crate::run::Run;
use crate::turn::Turn;
use pts_code::number_value;
use pts_lowering::{Induction, InitialValue, LoopClause};
use pts_types::{Kind, NoMemory, Value};
use std::alloc::AllocError;

// The number of a value.
fn number_of(value: Value) -> i128
    ensures value { result ≡ spec.number_of value }
    ensures small { nat_abs result < 2 ^ 64 }
{
    match value {
        Value::I64(number) => i128::from(number),
        Value::U64(number) => i128::from(number),
        Value::Bool(_) => 0,
    }
}

// A number as a kind keeps it; None out of the range of `i64`.
fn kept(kind: Kind, number: i128) -> Option<Value>
    ensures { result ≡ spec.kept kind number }
{
    match kind {
        Kind::U64 => {
            let natural = u128::try_from(number).unwrap_or(0);
            Some(Value::U64((natural % (1 << 64)) as u64))
        }
        Kind::I64 | Kind::Bool => match i64::try_from(number) {
            Ok(number) => Some(Value::I64(number)),
            Err(_) => None,
        },
    }
}

// A number after as many steps as positions stand before this one.
fn stepped(start: i128, step: i128, p: u32) -> i128
    requires start { nat_abs start < 2 ^ 64 }
    requires step { nat_abs step < 2 ^ 64 }
    ensures { result ≡ start +ℤ pos p *ℤ step }
{
    start + i128::from(p) * step
}

/// The value at a position of an induction that begins with this one; None where that leaves its kind.
pub(crate) fn induction_at(x: &Induction, begun: Value, p: u32) -> Option<Value>
    ensures { (store : Store) → begun ≡ spec.initial_in store x.now.initial → result ≡ spec.induction_at store x.now p }
{
    kept(x.kind, stepped(number_of(begun), number_of(x.step), p))
}

// What stands in the frame for a clause that begins with this value; nothing for a reduction.
fn clause_value(clause: &LoopClause, begun: Value, p: u32) -> Option<Value>
    ensures { (store : Store) → begun ≡ begins_with store clause.now → option_to_list result ≡ spec.clause_values store p clause.now }
{
    match clause {
        LoopClause::Reduction(_) => None,
        LoopClause::Induction(x) => Some(induction_at(x, begun, p).unwrap_or(Value::U64(0))),
    }
}

fn push(values: &mut Vec<Value>, value: Option<Value>) -> Result<(), AllocError>
    ensures { OnOk result (values.new.items ≡ values.old.items ++ option_to_list value) }
{
    if let Some(value) = value {
        values.push(value)?;
    }
    Ok(())
}

impl Run<'_> {
    // The index at a position.
    fn index(&self, p: u32) -> Value
        requires { holds kinds.I64 (self.now.head.now.first +ℤ pos p *ℤ self.now.head.now.step) ≡ true }
        ensures { result ≡ Value.I64 (self.now.head.now.first +ℤ pos p *ℤ self.now.head.now.step) }
    {
        let (first, step) = (i128::from(self.head.first), i128::from(self.head.step));
        number_value(Kind::I64, stepped(first, step, p))
    }

    // Goes to a position, at which nothing has been noted yet.
    pub(crate) fn enter(&self, turn: &mut Turn<'_>, p: u32) -> Result<(), NoMemory>
        requires index { holds kinds.I64 (self.now.head.now.first +ℤ pos p *ℤ self.now.head.now.step) ≡ true }
        requires begun { turn.old.begun.items ≡ map (begins_with turn.old.layer.below) self.now.head.now.clauses }
        ensures values { OnOk result (turn.new.values.items ≡ spec.head_values turn.old.layer.below self.now.head.now p) }
        ensures notes { OnOk result (turn.new.notes.items ≡ replicate (length turn.old.notes.items) None) }
        ensures layer { turn.new.layer ≡ turn.old.layer }
        ensures first { turn.new.first ≡ turn.old.first }
        ensures same { turn.new.begun.items ≡ turn.old.begun.items }
        ensures accumulators { turn.new.accumulators.items ≡ turn.old.accumulators.items }
    {
        turn.notes.as_mut_slice().fill(None);
        turn.values.clear();
        push(&mut turn.values, Some(self.index(p)))?;
        let clauses = self.head.clauses.as_slice();
        for j in 0..clauses.len() {
            push(
                &mut turn.values,
                clause_value(&clauses[j], turn.begun[j], p),
            )?;
        }
        Ok(())
    }
}

// Whether an induction that begins with this value has one of its kind at a position.
fn stays_at(x: &Induction, begun: Value, p: u32) -> bool
    ensures { result ≡ stays_at x.now begun p }
{
    kept(x.kind, stepped(number_of(begun), number_of(x.step), p)).is_some()
}

// The same of each position before `end`.
#[tactic(auto, using(crate::proofs::Staying::goes_on, crate::proofs::Staying::leaves, crate::proofs::Staying::none_left))]
fn stays_before(x: &Induction, begun: Value, end: u32) -> bool
    ensures { result ≡ list_all (stays_at x.now begun) (range_with_len 0 end) }
{
    for p in 0..end {
        if !stays_at(x, begun, p) {
            return false;
        }
    }
    true
}

// The same of each position, and of the one behind them where a cell is named.
#[tactic(auto, using(crate::proofs::Staying::with_last, crate::proofs::Staying::without_last))]
fn stays(x: &Induction, begun: Value, positions: u32) -> bool
    ensures { result ≡ list_all (stays_at x.now begun) (range_with_len 0 (spec.values_counted positions x.now.initial)) }
{
    match x.initial {
        InitialValue::Value(_) => stays_before(x, begun, positions),
        InitialValue::Cell(_) => {
            if !stays_before(x, begun, positions) {
                return false;
            }
            stays_at(x, begun, positions)
        }
    }
}

fn clause_stays(clause: &LoopClause, begun: Value, positions: u32) -> bool
    ensures { (store : Store) → begun ≡ begins_with store clause.now → result ≡ spec.clause_stays store positions clause.now }
{
    match clause {
        LoopClause::Reduction(_) => true,
        LoopClause::Induction(x) => stays(x, begun, positions),
    }
}

impl Run<'_> {
    /// Whether no induction leaves its kind.
    pub(crate) fn all_stay(&self, turn: &Turn<'_>) -> bool
        requires { turn.now.begun.items ≡ map (begins_with turn.now.layer.below) self.now.head.now.clauses }
        ensures { result ≡ spec.all_stay turn.now.layer.below self.now.head.now }
    {
        let clauses = self.head.clauses.as_slice();
        for j in 0..clauses.len() {
            if !clause_stays(&clauses[j], turn.begun[j], self.head.positions) {
                return false;
            }
        }
        true
    }
}
