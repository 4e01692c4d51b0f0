//! The cells of one array.

ghost use Rattle.std.specs.Prelude.{◌≡◌, IfOk};
ghost use Rattle.pts_store.specs.Stores.{cells_with};
ghost use Rattle.pts_store.specs.Writes.{in_row};

use crate::row::Row;
use pts_types::Value;
use std::alloc::{AllocError, Global};
use std::marker::Model;

/// The values of an array's cells. A cell takes 16 bytes.
#[derive(Drop)]
pub struct Cells {
    cells: Vec<Value>,
}

impl Model for Cells {
    ghost use Rattle.std.specs.Prelude.{List};
    ghost use Rattle.pts_types.specs.declared.value.Value.{Value as Cell};

    ghost Value = { List Cell };

    ghost view = { λ c. c.cells.items };
}

impl Cells {
    /// Cells with these values.
    pub fn new(alloc: Global, values: &[Value]) -> Result<Cells, AllocError>
        ensures { IfOk result (λ cells. cells ≡ values.now) }
    {
        let cells = Vec::from_slice(alloc, values)?;
        Ok(Cells { cells })
    }

    /// The values.
    pub fn as_slice(&self) -> &[Value]
        ensures { result.now ≡ self.now }
    {
        self.cells.as_slice()
    }

    /// Takes the values that are written for the cells.
    pub fn accept(&mut self, writes: &Row)
        ensures { self.new ≡ cells_with (in_row writes.now) self.old }
    {
        writes.write_into(self.cells.as_mut_slice());
    }
}
