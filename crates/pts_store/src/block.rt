//! The writes to 8,192 cells that follow one another.

ghost use Rattle.std.specs.Bool.{OnTrue, OnFalse};
ghost use Rattle.std.specs.Prelude.{◌≡◌, ◌≤◌, [], IsTrue, OnOk, OnErr, length};
ghost use Rattle.pts_store.specs.Levels.{Puts, Same, Covers, HasSlotInBlock, FitsBlock};
ghost use Rattle.pts_store.specs.Stores.{shown};
ghost use Rattle.pts_store.specs.Stretches.{Shows};
ghost use Rattle.pts_store.specs.Writes.{in_block};

use crate::padding::{Part, least, pad};
use crate::page::{PAGE, Page};
use pts_types::Value;
use std::alloc::{AllocError, Global};
use std::marker::Model;

/// The number of cells of a block.
pub const BLOCK: u32 = 8_192;

/// A list of pages, which may be shorter than a block.
#[derive(Drop)]
pub struct Block {
    pages: Vec<Page>,
}

impl Model for Block {
    ghost use Rattle.std.specs.Prelude.{List};
    ghost use Rattle.pts_store.specs.declared.page.Page.{Page};

    ghost Value = { List Page };

    ghost view = { λ b. b.pages.items };
}

impl Part for Block {
    ghost empty = { [] };

    fn nothing(alloc: Global) -> Block {
        Block {
            pages: Vec::new(alloc),
        }
    }
}

impl Block {
    /// The value at a place.
    #[tactic(auto, using(crate::proofs::Empty::nothing_in_pages), unfolding(crate::specs::Writes::in_block))]
    pub fn get(&self, at: u32) -> Option<Value>
        ensures { result ≡ in_block self.now at }
    {
        match self.pages.get((at / PAGE) as usize) {
            Some(page) => page.get(at % PAGE),
            None => None,
        }
    }

    /// Writes a value where the block has a slot for it, and says whether it has.
    #[inline(always)]
    #[tactic(auto, using(crate::proofs::Empty::no_slots), unfolding(crate::specs::Writes::in_block))]
    pub fn replace(&mut self, at: u32, value: Value) -> bool
        ensures done { OnTrue result (Puts (in_block self.old) (in_block self.new) at value) }
        ensures same { OnFalse result (Same (in_block self.old) (in_block self.new)) }
        ensures there { HasSlotInBlock self.old at → IsTrue result }
    {
        let page = (at / PAGE) as usize;
        if page < self.pages.len() {
            return self.pages[page].replace(at % PAGE, value);
        }
        false
    }

    /// Makes a slot for a place. What is written stays.
    #[tactic(auto, unfolding(crate::specs::Writes::in_block))]
    pub fn add_slot(&mut self, alloc: Global, at: u32) -> Result<(), AllocError>
        ensures there { OnOk result (HasSlotInBlock self.new at) }
        ensures same { Same (in_block self.old) (in_block self.new) }
    {
        let page = (at / PAGE) as usize;
        pad(alloc, &mut self.pages, page + 1)?;
        self.pages[page].add_slot(at % PAGE)
    }

    /// Makes room for the cells of another block. What is written stays.
    #[tactic(auto, unfolding(crate::specs::Writes::in_block))]
    pub fn reserve(&mut self, alloc: Global, later: &Block) -> Result<(), AllocError>
        ensures fits { OnOk result (FitsBlock later.now self.new) }
        ensures same { Same (in_block self.old) (in_block self.new) }
    {
        let pages = later.pages.as_slice();
        pad(alloc, &mut self.pages, pages.len())?;
        for at in 0..pages.len() {
            self.pages[at].reserve(&pages[at])?;
        }
        Ok(())
    }

    /// Writes what another block has.
    #[tactic(auto, using(crate::proofs::Empty::nothing_in_pages), unfolding(crate::specs::Writes::in_block))]
    pub fn cover(&mut self, later: &Block)
        requires { FitsBlock later.now self.old }
        ensures { Covers (in_block self.old) (in_block later.now) (in_block self.new) }
    {
        let pages = later.pages.as_slice();
        for at in 0..pages.len() {
            self.pages[at].cover(&pages[at]);
        }
    }

    /// Writes the values into the cells from `base` on. What lies past the cells is passed over.
    #[tactic(auto, unfolding(crate::specs::Writes::in_block))]
    pub fn write_into(&self, cells: &mut [Value], base: usize)
        requires { base ≤ length cells.old }
        ensures { Shows shown (in_block self.now) base 8192 cells.old cells.new }
    {
        let size = PAGE as usize;
        let pages = self.pages.as_slice();
        let count = least(least(pages.len(), 64), (cells.len() - base) / size + 1);
        for at in 0..count {
            pages[at].write_into(cells, base + at * size);
        }
    }
}
