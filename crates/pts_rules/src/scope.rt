//! The names that may be used at a place.

ghost use Rattle.std.specs.Prelude.{◌≡◌, ℕ, ◌-◌, ◌<◌, ◌≤◌, ◌^◌, nat_abs, IfSome, IsSome, None, Some, [], ◌∷◌, IsTrue, OnErr, OnOk, List, drop, length, reverse, string_bytes};
ghost use Rattle.std.specs.BTreeMap.{get_by_text};
ghost use Rattle.std.specs.Option.{option_copied};
ghost use Rattle.pts_rules.specs.Known as spec;
ghost use Rattle.pts_rules.specs.Rows.{AreLinked, counted, counts, entries, IsPut, IsTracked, IsUnchanged, place_of, row_of};

use crate::meaning::Meaning;
use pts_tree::Name;
use pts_types::NoMemory;
use sqlite_items::at;
use std::alloc::{AllocError, Global};
use std::collections::BTreeMap;
use std::marker::Model;

/// How many names of each sort are there.
#[derive(Clone, Copy, Debug)]
struct Counts {
    arrays: usize,
    functions: usize,
    values: usize,
}

/// A name, what it stands for, and how many names of each sort are older.
#[derive(Debug, Drop)]
struct Row {
    name: String,
    meaning: Meaning,
    older: Counts,
    /// The place of the row that this one hides.
    hidden: Option<usize>,
}

/// The names that may be used at a place, and what they stand for. The latest comes first; it hides older ones of its name.
#[derive(Drop)]
pub struct Scope {
    rows: Vec<Row>,
    places: BTreeMap<String, usize>,
}

impl Model for Scope {
    ghost Value = { spec.Scope };

    ghost view = { λ s. entries (reverse s.rows.items) };

    ghost invariant = { λ s. IsTracked (reverse s.rows.items) s.places };
}

#[tactic(auto, using(crate::proofs::Scoping::found_some, crate::proofs::Scoping::found_none))]
fn find<'a>(rows: &'a [Row], places: &BTreeMap<String, usize>, name: &Name) -> Option<&'a Row>
    requires { IsTracked (reverse rows.now) places.now }
    ensures { option_copied result ≡ row_of (reverse rows.now) name.now }
{
    match places.get(name.as_str()) {
        Some(place) => at(rows, *place),
        None => None,
    }
}

impl Counts {
    fn with(self, meaning: &Meaning) -> Counts
        requires { (self.arrays < 2 ^ 64 - 1) × (self.functions < 2 ^ 64 - 1) × (self.values < 2 ^ 64 - 1) }
        ensures { result ≡ counted self meaning.now }
    {
        let mut counts = self;
        match meaning {
            Meaning::Array(..) => counts.arrays += 1,
            Meaning::Function(_) => counts.functions += 1,
            Meaning::Value(_) => counts.values += 1,
            _ => (),
        }
        counts
    }
}

#[tactic(auto, using(crate::proofs::Scoping::last_counts))]
fn counts_of(rows: &[Row]) -> Counts
    requires { AreLinked (reverse rows.now) }
    ensures { result ≡ counts (reverse rows.now) }
{
    match rows.last() {
        Some(row) => row.older.with(&row.meaning),
        None => Counts {
            arrays: 0,
            functions: 0,
            values: 0,
        },
    }
}

// With no memory the map has the places that it had.
fn put_place(
    places: &mut BTreeMap<String, usize>,
    name: String,
    place: usize,
) -> Result<(), AllocError>
    ensures ok { OnOk result (IsPut places.old places.new (string_bytes name) (Some place)) }
    ensures err { OnErr result (IsUnchanged places.old places.new) }
{
    places.insert(name, place)?;
    Ok(())
}

// A name that has a place.
fn move_place(places: &mut BTreeMap<String, usize>, name: &str, place: usize)
    requires { IsSome (get_by_text places.old name.now) }
    ensures { IsPut places.old places.new name.now (Some place) }
{
    if let Some(latest) = places.get_mut(name) {
        *latest = place;
    }
}

fn remove_place(places: &mut BTreeMap<String, usize>, name: &str)
    ensures { IsPut places.old places.new name.now None }
{
    places.remove(name);
}

#[tactic(auto, using(crate::proofs::Scoping::unchanged, crate::proofs::Scoping::one_more))]
fn enter_row(
    rows: &mut Vec<Row>,
    places: &mut BTreeMap<String, usize>,
    name: String,
    row: Row,
) -> Result<(), AllocError>
    requires tracked { IsTracked (reverse rows.old.items) places.old }
    requires named { string_bytes name ≡ string_bytes row.name }
    requires linked { (row.older ≡ counts (reverse rows.old.items)) × (row.hidden ≡ place_of (reverse rows.old.items) (string_bytes row.name)) }
    requires bounded { IsTrue (spec.is_in_bounds row.meaning) }
    ensures tracked { IsTracked (reverse rows.new.items) places.new }
    ensures entered { OnOk result (reverse rows.new.items ≡ row ∷ reverse rows.old.items) }
{
    let place = rows.len();
    rows.push(row)?;
    match put_place(places, name, place) {
        Ok(()) => Ok(()),
        Err(e) => {
            rows.pop();
            Err(e)
        }
    }
}

fn leave_row(rows: &mut Vec<Row>, places: &mut BTreeMap<String, usize>)
    requires { IsTracked (reverse rows.old.items) places.old }
    ensures tracked { IsTracked (reverse rows.new.items) places.new }
    ensures left { reverse rows.new.items ≡ drop 1 (reverse rows.old.items) }
{
    let Some(row) = rows.pop() else { return };
    match row.hidden {
        Some(place) => move_place(places, row.name.as_str(), place),
        None => remove_place(places, row.name.as_str()),
    }
}

impl Scope {
    /// No names.
    pub fn new(alloc: Global) -> Scope
        ensures { result ≡ [] }
    {
        Scope {
            rows: Vec::new(alloc),
            places: BTreeMap::new(alloc),
        }
    }

    /// How many names were entered and not left.
    pub fn len(&self) -> usize
        ensures { result ≡ length self.now }
    {
        self.rows.len()
    }

    /// What a name stands for, where it may be used.
    #[tactic(auto, using(crate::proofs::Scoping::means_some, crate::proofs::Scoping::means_none))]
    pub fn meaning(&self, name: &Name) -> Option<&Meaning>
        ensures { option_copied result ≡ spec.meaning_of self.now name.now }
    {
        match find(self.rows.as_slice(), &self.places, name) {
            Some(row) => Some(&row.meaning),
            None => None,
        }
    }

    /// The number that a constant stands for; None for any other name.
    #[tactic(auto, using(crate::proofs::Scoping::means_some, crate::proofs::Scoping::means_none, crate::proofs::Scoping::bounded_row, crate::proofs::Scoping::in_bounds_small))]
    pub fn constant(&self, name: &Name) -> Option<i128>
        ensures value { result ≡ spec.constant_of self.now name.now }
        ensures small { IfSome result (λ z. nat_abs z < 2 ^ 64) }
    {
        let Some(row) = find(self.rows.as_slice(), &self.places, name) else {
            return None;
        };
        match row.meaning {
            Meaning::Constant(number) => Some(number),
            _ => None,
        }
    }

    /// The number of an array, from 0 in the order in which they were entered; None for any other name.
    #[tactic(auto, using(crate::proofs::Scoping::array_numbered))]
    pub fn array_number(&self, name: &Name) -> Option<usize>
        ensures { result ≡ spec.array_number self.now name.now }
    {
        let Some(row) = find(self.rows.as_slice(), &self.places, name) else {
            return None;
        };
        match row.meaning {
            Meaning::Array(..) => Some(row.older.arrays),
            _ => None,
        }
    }

    /// The number of a function, likewise.
    #[tactic(auto, using(crate::proofs::Scoping::function_numbered))]
    pub fn function_number(&self, name: &Name) -> Option<usize>
        ensures { result ≡ spec.function_number self.now name.now }
    {
        let Some(row) = find(self.rows.as_slice(), &self.places, name) else {
            return None;
        };
        match row.meaning {
            Meaning::Function(_) => Some(row.older.functions),
            _ => None,
        }
    }

    /// The number of a local value, likewise.
    #[tactic(auto, using(crate::proofs::Scoping::value_numbered))]
    pub fn value_number(&self, name: &Name) -> Option<usize>
        ensures { result ≡ spec.value_number self.now name.now }
    {
        let Some(row) = find(self.rows.as_slice(), &self.places, name) else {
            return None;
        };
        match row.meaning {
            Meaning::Value(_) => Some(row.older.values),
            _ => None,
        }
    }

    /// A name more. It hides an older one that is equal.
    pub fn enter(&mut self, alloc: Global, name: &Name, meaning: Meaning) -> Result<(), NoMemory>
        requires { IsTrue (spec.is_in_bounds meaning) }
        ensures { OnOk result (self.new ≡ (name.now, meaning) ∷ self.old) }
    {
        Ok(self.push(alloc, name, meaning)?)
    }

    fn push(&mut self, alloc: Global, name: &Name, meaning: Meaning) -> Result<(), AllocError>
        requires { IsTrue (spec.is_in_bounds meaning) }
        ensures { OnOk result (self.new ≡ (name.now, meaning) ∷ self.old) }
    {
        let key = name.as_str().to_string(alloc)?;
        let row = Row {
            name: name.as_str().to_string(alloc)?,
            meaning,
            older: counts_of(self.rows.as_slice()),
            hidden: self.places.get(name.as_str()).copied(),
        };
        enter_row(&mut self.rows, &mut self.places, key, row)
    }

    /// Leaves the latest names, until there are `len`.
    pub fn leave(&mut self, len: usize)
        ensures { self.new ≡ drop (length self.old - len) self.old }
    {
        let extra = self.len().saturating_sub(len);
        for _turn in 0..extra {
            self.leave_last();
        }
    }

    fn leave_last(&mut self)
        ensures { self.new ≡ drop 1 self.old }
    {
        leave_row(&mut self.rows, &mut self.places);
    }
}
