//! The writes to 128 cells that follow one another.

ghost use Rattle.std.specs.Bool.{OnTrue, OnFalse};
ghost use Rattle.std.specs.Prelude.{◌≡◌, ◌≤◌, ℕ, [], IsTrue, OnOk, OnErr, get_or, length, vec_len};
ghost use Rattle.pts_store.specs.declared.slot.Slot.TheVariants.{Nothing};
ghost use Rattle.pts_store.specs.Levels.{Puts, Same, Covers, HasSlot, FitsPage};
ghost use Rattle.pts_store.specs.Stores.{shown};
ghost use Rattle.pts_store.specs.Stretches.{Shows};
ghost use Rattle.pts_store.specs.Writes.{in_page};

use crate::padding::{Part, least};
use crate::slot::Slot;
use pts_types::Value;
use std::alloc::{AllocError, Global};
use std::marker::Model;

/// The number of cells of a page.
pub const PAGE: u32 = 128;

// A page is as long as its last cell asks for up to the first length, then as long as the second one, and then a whole page, so that
// it grows seldom.
const FEW: usize = 4;

const SOME: usize = 16;

/// A list of slots, which may be shorter than a page.
#[derive(Drop)]
pub struct Page {
    slots: Vec<Slot>,
}

impl Model for Page {
    ghost use Rattle.std.specs.Prelude.{List};
    ghost use Rattle.pts_store.specs.declared.slot.Slot.{Slot};

    ghost Value = { List Slot };

    ghost view = { λ p. p.slots.items };
}

impl Part for Page {
    ghost empty = { [] };

    fn nothing(alloc: Global) -> Page {
        Page {
            slots: Vec::new(alloc),
        }
    }
}

impl Page {
    /// The value at a place.
    #[tactic(auto, unfolding(crate::specs::Writes::in_page))]
    pub fn get(&self, at: u32) -> Option<Value>
        ensures { result ≡ in_page self.now at }
    {
        match self.slots.get(at as usize) {
            Some(slot) => slot.value(),
            None => None,
        }
    }

    /// Writes a value where the page has a slot for it, and says whether it has.
    #[inline(always)]
    #[tactic(auto, unfolding(crate::specs::Writes::in_page))]
    pub fn replace(&mut self, at: u32, value: Value) -> bool
        ensures done { OnTrue result (Puts (in_page self.old) (in_page self.new) at value) }
        ensures same { OnFalse result (Same (in_page self.old) (in_page self.new)) }
        ensures there { HasSlot self.old at → IsTrue result }
    {
        let at = at as usize;
        if at < self.slots.len() {
            self.slots[at] = Slot::of(value);
            return true;
        }
        false
    }

    /// Makes a slot for a place. What is written stays.
    #[tactic(auto, unfolding(crate::specs::Writes::in_page))]
    pub fn add_slot(&mut self, at: u32) -> Result<(), AllocError>
        ensures there { OnOk result (HasSlot self.new at) }
        ensures same { Same (in_page self.old) (in_page self.new) }
    {
        pad_slots(&mut self.slots, at as usize + 1)
    }

    /// Makes room for the cells of another page. What is written stays.
    #[tactic(auto, unfolding(crate::specs::Writes::in_page))]
    pub fn reserve(&mut self, later: &Page) -> Result<(), AllocError>
        ensures fits { OnOk result (FitsPage later.now self.new) }
        ensures same { Same (in_page self.old) (in_page self.new) }
    {
        pad_slots(&mut self.slots, later.slots.len())
    }

    /// Writes what another page has.
    #[tactic(auto, unfolding(crate::specs::Writes::in_page))]
    pub fn cover(&mut self, later: &Page)
        requires { FitsPage later.now self.old }
        ensures { Covers (in_page self.old) (in_page later.now) (in_page self.new) }
    {
        let slots = later.slots.as_slice();
        for at in 0..slots.len() {
            match slots[at] {
                Slot::Nothing => (),
                slot => self.slots[at] = slot,
            }
        }
    }

    /// Writes the values into the cells from `base` on. What lies past the cells is passed over.
    #[tactic(auto, unfolding(crate::specs::Writes::in_page))]
    pub fn write_into(&self, cells: &mut [Value], base: usize)
        requires { base ≤ length cells.old }
        ensures { Shows shown (in_page self.now) base 128 cells.old cells.new }
    {
        let slots = self.slots.as_slice();
        let count = least(least(slots.len(), PAGE as usize), cells.len() - base);
        for at in 0..count {
            cells[base + at] = slots[at].over(cells[base + at]);
        }
    }
}

fn pad_slots(slots: &mut Vec<Slot>, count: usize) -> Result<(), AllocError>
    ensures count { OnOk result (count ≤ vec_len slots.new) }
    ensures kept { (k : ℕ) → get_or slots.new.items k Nothing ≡ get_or slots.old.items k Nothing }
{
    if count <= slots.len() {
        return Ok(());
    }
    slots.resize(page_len(count), Slot::Nothing)
}

fn page_len(count: usize) -> usize
    ensures { count ≤ result }
{
    if count <= FEW || count > PAGE as usize {
        count
    } else if count <= SOME {
        SOME
    } else {
        PAGE as usize
    }
}
