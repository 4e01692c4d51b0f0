//! What calls write: at each cell of each array a value, or nothing.

ghost use Rattle.std.specs.Bool.{OnTrue, OnFalse};
ghost use Rattle.std.specs.Prelude.{◌≡◌, ◌↔◌, [], IsTrue, OnOk, OnErr};
ghost use Rattle.pts_store.specs.Levels.{HasSlotInWrites, FitsWrites};
ghost use Rattle.pts_store.specs.Stores.{accepted};
ghost use Rattle.pts_store.specs.Writes.{written, SameWrites, PutsCell, Merges};

use crate::band::{BAND, Band};
use crate::cells::Cells;
use crate::padding::{least, pad};
use pts_types::{NoMemory, Value};
use std::alloc::{AllocError, Global};
use std::marker::Model;

/// Values for cells, at most one for each. They lie in lists of lists that are as long as the last cell in them asks for: up to
/// some 17 bytes a cell for whole arrays, and up to 10 KB for a cell that is alone.
#[derive(Drop)]
pub struct Writes {
    bands: Vec<Band>,
    alloc: Global,
}

impl Model for Writes {
    ghost use Rattle.std.specs.Prelude.{List};
    ghost use Rattle.pts_store.specs.declared.band.Band.{Band};

    ghost Value = { List Band };

    ghost view = { λ w. w.bands.items };
}

impl Writes {
    /// No writes. It takes no memory.
    pub fn new(alloc: Global) -> Writes
        ensures { result ≡ [] }
    {
        Writes {
            bands: Vec::new(alloc),
            alloc,
        }
    }

    /// Whether nothing was ever written.
    pub fn is_empty(&self) -> bool
        ensures { IsTrue result ↔ (self.now ≡ []) }
    {
        self.bands.is_empty()
    }

    /// The value that is written to a cell, if there is one.
    #[tactic(auto, using(crate::proofs::Empty::nothing_in_bands), unfolding(crate::specs::Writes::written))]
    pub fn get(&self, array: u32, index: u32) -> Option<Value>
        ensures { result ≡ written self.now array index }
    {
        match self.bands.get((array / BAND) as usize) {
            Some(band) => band.get(array % BAND, index),
            None => None,
        }
    }

    /// Writes a value to a cell, in place of an earlier one. With want of memory the writes stay as they are.
    // Within its callers the value stays in registers: in memory it would fill the queue of stores, and random writes take twice as long.
    #[inline(always)]
    pub fn set(&mut self, array: u32, index: u32, value: Value) -> Result<(), NoMemory>
        ensures ok { OnOk result (PutsCell self.old self.new array index value) }
        ensures err { OnErr result (SameWrites self.old self.new) }
    {
        if !self.replace(array, index, value) {
            self.add_slot(array, index)?;
            self.replace(array, index, value);
        }
        Ok(())
    }

    // Writes a value where there is a slot for it, and says whether there is one.
    #[inline(always)]
    #[tactic(auto, using(crate::proofs::Empty::no_slots), unfolding(crate::specs::Writes::written))]
    fn replace(&mut self, array: u32, index: u32, value: Value) -> bool
        ensures done { OnTrue result (PutsCell self.old self.new array index value) }
        ensures same { OnFalse result (SameWrites self.old self.new) }
        ensures there { HasSlotInWrites self.old array index → IsTrue result }
    {
        let band = (array / BAND) as usize;
        if band < self.bands.len() {
            return self.bands[band].replace(array % BAND, index, value);
        }
        false
    }

    // Makes a slot for a cell. What is written stays. It takes no value, which would then have to lie in memory at each write.
    #[cold]
    #[inline(never)]
    #[tactic(auto, unfolding(crate::specs::Writes::written))]
    fn add_slot(&mut self, array: u32, index: u32) -> Result<(), AllocError>
        ensures there { OnOk result (HasSlotInWrites self.new array index) }
        ensures same { SameWrites self.old self.new }
    {
        let band = (array / BAND) as usize;
        pad(self.alloc, &mut self.bands, band + 1)?;
        self.bands[band].add_slot(self.alloc, array % BAND, index)
    }

    // Makes room for the cells of other writes. What is written stays.
    #[tactic(auto, unfolding(crate::specs::Writes::written))]
    fn reserve(&mut self, later: &Writes) -> Result<(), AllocError>
        ensures fits { OnOk result (FitsWrites later.now self.new) }
        ensures same { SameWrites self.old self.new }
    {
        let bands = later.bands.as_slice();
        pad(self.alloc, &mut self.bands, bands.len())?;
        for at in 0..bands.len() {
            self.bands[at].reserve(self.alloc, &bands[at])?;
        }
        Ok(())
    }

    // Writes what other writes have.
    #[tactic(auto, using(crate::proofs::Empty::nothing_in_bands), unfolding(crate::specs::Writes::written))]
    fn cover(&mut self, later: &Writes)
        requires { FitsWrites later.now self.old }
        ensures { Merges self.old later.now self.new }
    {
        let bands = later.bands.as_slice();
        for at in 0..bands.len() {
            self.bands[at].cover(&bands[at]);
        }
    }

    /// Writes the values into the arrays. What lies past the arrays or their cells is passed over.
    #[tactic(auto, unfolding(crate::specs::Writes::written))]
    pub(crate) fn write_into(&self, arrays: &mut [Cells])
        ensures { arrays.new ≡ accepted arrays.old self.now }
    {
        let size = BAND as usize;
        let bands = self.bands.as_slice();
        let count = least(bands.len(), arrays.len() / size + 1);
        for at in 0..count {
            bands[at].write_into(arrays, at * size);
        }
    }
}

/// Writes `later` over `target`. With want of memory `target` stays as it is.
pub fn merge(target: &mut Writes, later: &Writes) -> Result<(), NoMemory>
    ensures ok { OnOk result (Merges target.old later.now target.new) }
    ensures err { OnErr result (SameWrites target.old target.new) }
{
    target.reserve(later)?;
    target.cover(later);
    Ok(())
}
