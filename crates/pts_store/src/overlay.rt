//! Writes of one call, chunk or task, over what it reads.

ghost use Rattle.std.specs.Prelude.{◌≡◌, [], OnOk, OnErr, Some, slice_get};
ghost use Rattle.pts_store.specs.Bases.{below};
ghost use Rattle.pts_store.specs.Stores.{cells_in, IsCell, put_cell, accepted};
ghost use Rattle.pts_store.specs.Writes.{SameWrites, PutsCell, Merges};

use crate::store::Store;
use crate::writes::{Writes, merge};
use pts_types::{NoMemory, Value};
use std::alloc::Global;
use std::marker::Model;

#[cycle(overlay)]
#[derive(Clone, Copy)]
enum Base<'a> {
    OnStore(&'a Store),
    OnOverlay(&'a Overlay<'a>),
}

/// Writes over a store or over another overlay, which stay as they are. Contracts see the store that it stands for and its own
/// writes. A new one has none, and takes no memory.
#[cycle(overlay)]
#[derive(Drop)]
pub struct Overlay<'a> {
    base: Base<'a>,
    writes: Writes,
}

impl<'a> Model for Overlay<'a> {
    ghost use Rattle.pts_store.specs.Overlays.{Layer};
    ghost use Rattle.pts_store.specs.Stores.{accepted};

    ghost Value = { Layer };

    ghost use Rattle.pts_store.specs.Bases.{below, depth_of};

    ghost view = { λ o. record { stands = accepted (below o.base) o.writes; below = below o.base; writes = o.writes; depth = depth_of o.base } };

    ghost size = { λ o. o.depth };
}

impl<'a> Overlay<'a> {
    /// An overlay over a store.
    #[tactic(auto, using(crate::proofs::Changes::nothing_accepted))]
    pub fn over_store(alloc: Global, store: &'a Store) -> Overlay<'a>
        ensures stands { result.stands ≡ store.entry.now }
        ensures below { result.below ≡ store.entry.now }
        ensures writes { result.writes ≡ [] }
    {
        Overlay {
            base: Base::OnStore(store),
            writes: Writes::new(alloc),
        }
    }

    /// An overlay over another one.
    #[tactic(auto, using(crate::proofs::Changes::nothing_accepted))]
    pub fn over(alloc: Global, lower: &'a Overlay<'a>) -> Overlay<'a>
        ensures stands { result.stands ≡ lower.entry.now.stands }
        ensures below { result.below ≡ lower.entry.now.stands }
        ensures writes { result.writes ≡ [] }
    {
        Overlay {
            base: base_over(lower),
            writes: Writes::new(alloc),
        }
    }

    /// The value that a cell has with the writes of this overlay and of those below it.
    #[inline]
    pub fn cell(&self, array: u32, index: u32) -> Value
        requires { IsCell self.now.stands array index }
        ensures { Some result ≡ slice_get (cells_in self.now.stands array) index }
    {
        match self.writes.get(array, index) {
            Some(value) => value,
            None => {
                let mut found = Value::Bool(false);
                self.base.read(array, index, &mut found);
                found
            }
        }
    }

    /// Writes a value to a cell. With want of memory the overlay stays as it is.
    #[inline(always)]
    pub fn set(&mut self, array: u32, index: u32, value: Value) -> Result<(), NoMemory>
        ensures stands { OnOk result (self.new.stands ≡ put_cell self.old.stands array index value) }
        ensures writes { OnOk result (PutsCell self.old.writes self.new.writes array index value) }
        ensures below { self.new.below ≡ self.old.below }
        ensures same { OnErr result (self.new.stands ≡ self.old.stands) }
        ensures unwritten { OnErr result (SameWrites self.old.writes self.new.writes) }
    {
        self.writes.set(array, index, value)
    }

    /// Writes every cell that the writes have a value for. With want of memory the overlay stays as it is.
    pub fn put_all(&mut self, writes: &Writes) -> Result<(), NoMemory>
        ensures stands { OnOk result (self.new.stands ≡ accepted self.old.stands writes.now) }
        ensures writes { OnOk result (Merges self.old.writes writes.now self.new.writes) }
        ensures below { self.new.below ≡ self.old.below }
        ensures same { OnErr result (self.new.stands ≡ self.old.stands) }
        ensures unwritten { OnErr result (SameWrites self.old.writes self.new.writes) }
    {
        merge(&mut self.writes, writes)
    }

    /// What was written to this overlay. Accepted by the store below, it gives the one that the overlay stood for.
    pub fn into_writes(self) -> Writes
        ensures writes { result ≡ self.entry.writes }
        ensures stands { accepted self.entry.below result ≡ self.entry.stands }
    {
        self.writes
    }
}

impl<'a> Base<'a> {
    // Reads a cell of the store that it stands for. The value is given through `found`, so that a walk down many overlays is a loop.
    fn read(self, array: u32, index: u32, found: &mut Value)
        requires { IsCell (below self) array index }
        ensures { Some found.new ≡ slice_get (cells_in (below self.entry) array) index }
    {
        match self {
            Base::OnStore(store) => *found = store.cell(array, index),
            Base::OnOverlay(lower) => match lower.writes.get(array, index) {
                Some(value) => *found = value,
                None => lower.base.read(array, index, found),
            },
        }
    }
}

// What a new overlay over this one reads: where nothing is written in it, what it reads itself.
#[tactic(auto, using(crate::proofs::Changes::nothing_accepted))]
fn base_over<'a>(lower: &'a Overlay<'a>) -> Base<'a>
    ensures { below result ≡ lower.entry.now.stands }
{
    if lower.writes.is_empty() {
        lower.base
    } else {
        Base::OnOverlay(lower)
    }
}
