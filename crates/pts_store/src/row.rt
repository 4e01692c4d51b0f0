//! The writes to one array.

ghost use Rattle.std.specs.Bool.{OnTrue, OnFalse};
ghost use Rattle.std.specs.Prelude.{◌≡◌, [], IsTrue, OnOk, OnErr};
ghost use Rattle.pts_store.specs.Levels.{Puts, Same, Covers, HasSlotInRow, FitsRow};
ghost use Rattle.pts_store.specs.Stores.{cells_with};
ghost use Rattle.pts_store.specs.Writes.{in_row};

use crate::block::{BLOCK, Block};
use crate::padding::{Part, least, pad};
use pts_types::Value;
use std::alloc::{AllocError, Global};
use std::marker::Model;

/// A list of blocks, which may be shorter than the array.
#[derive(Drop)]
pub struct Row {
    blocks: Vec<Block>,
}

impl Model for Row {
    ghost use Rattle.std.specs.Prelude.{List};
    ghost use Rattle.pts_store.specs.declared.block.Block.{Block};

    ghost Value = { List Block };

    ghost view = { λ r. r.blocks.items };
}

impl Part for Row {
    ghost empty = { [] };

    fn nothing(alloc: Global) -> Row {
        Row {
            blocks: Vec::new(alloc),
        }
    }
}

impl Row {
    /// The value of a cell.
    #[tactic(auto, using(crate::proofs::Empty::nothing_in_blocks), unfolding(crate::specs::Writes::in_row))]
    pub fn get(&self, index: u32) -> Option<Value>
        ensures { result ≡ in_row self.now index }
    {
        match self.blocks.get((index / BLOCK) as usize) {
            Some(block) => block.get(index % BLOCK),
            None => None,
        }
    }

    /// Writes a value where the row has a slot for it, and says whether it has.
    #[inline(always)]
    #[tactic(auto, using(crate::proofs::Empty::no_slots), unfolding(crate::specs::Writes::in_row))]
    pub fn replace(&mut self, index: u32, value: Value) -> bool
        ensures done { OnTrue result (Puts (in_row self.old) (in_row self.new) index value) }
        ensures same { OnFalse result (Same (in_row self.old) (in_row self.new)) }
        ensures there { HasSlotInRow self.old index → IsTrue result }
    {
        let block = (index / BLOCK) as usize;
        if block < self.blocks.len() {
            return self.blocks[block].replace(index % BLOCK, value);
        }
        false
    }

    /// Makes a slot for a cell. What is written stays.
    #[tactic(auto, unfolding(crate::specs::Writes::in_row))]
    pub fn add_slot(&mut self, alloc: Global, index: u32) -> Result<(), AllocError>
        ensures there { OnOk result (HasSlotInRow self.new index) }
        ensures same { Same (in_row self.old) (in_row self.new) }
    {
        let block = (index / BLOCK) as usize;
        pad(alloc, &mut self.blocks, block + 1)?;
        self.blocks[block].add_slot(alloc, index % BLOCK)
    }

    /// Makes room for the cells of another row. What is written stays.
    #[tactic(auto, unfolding(crate::specs::Writes::in_row))]
    pub fn reserve(&mut self, alloc: Global, later: &Row) -> Result<(), AllocError>
        ensures fits { OnOk result (FitsRow later.now self.new) }
        ensures same { Same (in_row self.old) (in_row self.new) }
    {
        let blocks = later.blocks.as_slice();
        pad(alloc, &mut self.blocks, blocks.len())?;
        for at in 0..blocks.len() {
            self.blocks[at].reserve(alloc, &blocks[at])?;
        }
        Ok(())
    }

    /// Writes what another row has.
    #[tactic(auto, using(crate::proofs::Empty::nothing_in_blocks), unfolding(crate::specs::Writes::in_row))]
    pub fn cover(&mut self, later: &Row)
        requires { FitsRow later.now self.old }
        ensures { Covers (in_row self.old) (in_row later.now) (in_row self.new) }
    {
        let blocks = later.blocks.as_slice();
        for at in 0..blocks.len() {
            self.blocks[at].cover(&blocks[at]);
        }
    }

    /// Writes the values into the cells. What lies past them is passed over.
    #[tactic(auto, unfolding(crate::specs::Writes::in_row))]
    pub fn write_into(&self, cells: &mut [Value])
        ensures { cells.new ≡ cells_with (in_row self.now) cells.old }
    {
        let size = BLOCK as usize;
        let blocks = self.blocks.as_slice();
        let count = least(blocks.len(), cells.len() / size + 1);
        for at in 0..count {
            blocks[at].write_into(cells, at * size);
        }
    }
}
