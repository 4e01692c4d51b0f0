//! The writes to 64 arrays that follow one another.

ghost use Rattle.std.specs.Bool.{OnTrue, OnFalse};
ghost use Rattle.std.specs.Prelude.{◌≡◌, ◌≤◌, [], IsTrue, OnOk, OnErr, length};
ghost use Rattle.pts_store.specs.Levels.{SameBand, PutsInBand, CoversBand, HasSlotInBand, FitsBand};
ghost use Rattle.pts_store.specs.Stores.{cells_with};
ghost use Rattle.pts_store.specs.Stretches.{Shows};
ghost use Rattle.pts_store.specs.Writes.{in_band};

use crate::cells::Cells;
use crate::padding::{Part, least, pad};
use crate::row::Row;
use pts_types::Value;
use std::alloc::{AllocError, Global};
use std::marker::Model;

/// The number of arrays of a band.
pub const BAND: u32 = 64;

/// A list of rows, which may be shorter than a band.
#[derive(Drop)]
pub struct Band {
    rows: Vec<Row>,
}

impl Model for Band {
    ghost use Rattle.std.specs.Prelude.{List};
    ghost use Rattle.pts_store.specs.declared.row.Row.{Row};

    ghost Value = { List Row };

    ghost view = { λ b. b.rows.items };
}

impl Part for Band {
    ghost empty = { [] };

    fn nothing(alloc: Global) -> Band {
        Band {
            rows: Vec::new(alloc),
        }
    }
}

impl Band {
    /// The value of a cell of the row at a place.
    #[tactic(auto, using(crate::proofs::Empty::nothing_in_rows), unfolding(crate::specs::Writes::in_band))]
    pub fn get(&self, at: u32, index: u32) -> Option<Value>
        ensures { result ≡ in_band self.now at index }
    {
        match self.rows.get(at as usize) {
            Some(row) => row.get(index),
            None => None,
        }
    }

    /// Writes a value where the band has a slot for it, and says whether it has.
    #[inline(always)]
    #[tactic(auto, using(crate::proofs::Empty::no_slots), unfolding(crate::specs::Writes::in_band))]
    pub fn replace(&mut self, at: u32, index: u32, value: Value) -> bool
        ensures done { OnTrue result (PutsInBand self.old self.new at index value) }
        ensures same { OnFalse result (SameBand self.old self.new) }
        ensures there { HasSlotInBand self.old at index → IsTrue result }
    {
        let row = at as usize;
        if row < self.rows.len() {
            return self.rows[row].replace(index, value);
        }
        false
    }

    /// Makes a slot for a cell. What is written stays.
    #[tactic(auto, unfolding(crate::specs::Writes::in_band))]
    pub fn add_slot(&mut self, alloc: Global, at: u32, index: u32) -> Result<(), AllocError>
        ensures there { OnOk result (HasSlotInBand self.new at index) }
        ensures same { SameBand self.old self.new }
    {
        let row = at as usize;
        pad(alloc, &mut self.rows, row + 1)?;
        self.rows[row].add_slot(alloc, index)
    }

    /// Makes room for the cells of another band. What is written stays.
    #[tactic(auto, unfolding(crate::specs::Writes::in_band))]
    pub fn reserve(&mut self, alloc: Global, later: &Band) -> Result<(), AllocError>
        ensures fits { OnOk result (FitsBand later.now self.new) }
        ensures same { SameBand self.old self.new }
    {
        let rows = later.rows.as_slice();
        pad(alloc, &mut self.rows, rows.len())?;
        for at in 0..rows.len() {
            self.rows[at].reserve(alloc, &rows[at])?;
        }
        Ok(())
    }

    /// Writes what another band has.
    #[tactic(auto, using(crate::proofs::Empty::nothing_in_rows), unfolding(crate::specs::Writes::in_band))]
    pub fn cover(&mut self, later: &Band)
        requires { FitsBand later.now self.old }
        ensures { CoversBand self.old later.now self.new }
    {
        let rows = later.rows.as_slice();
        for at in 0..rows.len() {
            self.rows[at].cover(&rows[at]);
        }
    }

    /// Writes the values into the arrays from `base` on. What lies past the arrays or their cells is passed over.
    #[tactic(auto, unfolding(crate::specs::Writes::in_band))]
    pub fn write_into(&self, arrays: &mut [Cells], base: usize)
        requires { base ≤ length arrays.old }
        ensures { Shows cells_with (in_band self.now) base 64 arrays.old arrays.new }
    {
        let rows = self.rows.as_slice();
        let count = least(least(rows.len(), BAND as usize), arrays.len() - base);
        for at in 0..count {
            arrays[base + at].accept(&rows[at]);
        }
    }
}
