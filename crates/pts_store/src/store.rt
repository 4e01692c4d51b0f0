//! What the arrays hold while a script runs.

ghost use Rattle.std.specs.Prelude.{◌≡◌, [], ◌∷◌, ◌++◌, IfOk, OnErr, OnOk, Some, slice_get};
ghost use Rattle.pts_store.specs.Stores.{cells_in, IsCell, accepted};

use crate::cells::Cells;
use crate::writes::Writes;
use pts_types::{NoMemory, Value};
use sqlite_items::Items;
use std::alloc::{AllocError, Global};
use std::marker::Model;

/// The cells of all arrays, each array by its number and each cell by its index, both from 0 on.
#[derive(Drop)]
pub struct Store {
    arrays: Vec<Cells>,
}

impl Model for Store {
    ghost use Rattle.std.specs.Prelude.{List};
    ghost use Rattle.pts_types.specs.declared.value.Value.{Value as Cell};

    ghost Value = { List (List Cell) };

    ghost view = { λ s. s.arrays.items };
}

impl Store {
    /// A store without arrays.
    pub fn new(alloc: Global) -> Store
        ensures { result ≡ [] }
    {
        Store {
            arrays: Vec::new(alloc),
        }
    }

    /// One array more, which holds these values and has the next number. With want of memory the store stays as it is.
    pub fn push(&mut self, alloc: Global, values: &[Value]) -> Result<(), NoMemory>
        ensures ok { OnOk result (self.new ≡ self.old ++ values.now ∷ []) }
        ensures err { OnErr result (self.new ≡ self.old) }
    {
        Ok(push_cells(alloc, &mut self.arrays, values)?)
    }

    /// A store of arrays that hold these values.
    pub fn start(alloc: Global, arrays: &[Items<Value>]) -> Result<Store, NoMemory>
        ensures { IfOk result (λ store. store ≡ arrays.now) }
    {
        let mut store = Store::new(alloc);
        for array in arrays {
            store.push(alloc, array.as_slice())?;
        }
        Ok(store)
    }

    /// The cells of an array; none where there is no such array.
    pub fn cells(&self, array: u32) -> &[Value]
        ensures { result.now ≡ cells_in self.now array }
    {
        match self.arrays.get(array as usize) {
            Some(cells) => cells.as_slice(),
            None => &[],
        }
    }

    /// The value of a cell that the array has.
    pub fn cell(&self, array: u32, index: u32) -> Value
        requires { IsCell self.now array index }
        ensures { Some result ≡ slice_get (cells_in self.now array) index }
    {
        self.cells(array)[index as usize]
    }

    /// Writes every cell that the writes have a value for. It takes no memory, and its time is that of the lists in the writes.
    pub fn accept(&mut self, writes: &Writes)
        ensures { self.new ≡ accepted self.old writes.now }
    {
        writes.write_into(self.arrays.as_mut_slice());
    }
}

fn push_cells(alloc: Global, arrays: &mut Vec<Cells>, values: &[Value]) -> Result<(), AllocError>
    ensures ok { OnOk result (arrays.new.items ≡ arrays.old.items ++ values.now ∷ []) }
    ensures err { OnErr result (arrays.new.items ≡ arrays.old.items) }
{
    let cells = Cells::new(alloc, values)?;
    arrays.push(cells)?;
    Ok(())
}
