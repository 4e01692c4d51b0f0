//! What may be read while others write: a store, or an overlay.

ghost use Rattle.std.specs.Prelude.{◌≡◌, [], List, Some, slice_get};
ghost use Rattle.pts_types.specs.declared.value.Value.{Value as Cell};
ghost use Rattle.pts_store.specs.Stores.{cells_in, IsCell};

use crate::overlay::Overlay;
use crate::store::Store;
use pts_types::Value;
use std::alloc::Global;

/// Cells to be read, and a layer over them for what is written meanwhile. A function over any view, rather than over an overlay,
/// keeps the clauses of closures that run in other threads.
pub trait View {
    ghost stands: { Self → List (List Cell) };

    /// The value of a cell.
    fn cell(&self, array: u32, index: u32) -> Value
        requires { IsCell (stands self.now) array index }
        ensures { Some result ≡ slice_get (cells_in (stands self.now) array) index };

    /// A new overlay over this view. It takes no memory.
    fn layer<'a>(&'a self, alloc: Global) -> Overlay<'a>
        ensures stands { result.stands ≡ stands self.entry.now }
        ensures below { result.below ≡ stands self.entry.now }
        ensures writes { result.writes ≡ [] };
}

impl View for Store {
    ghost stands = { λ store. store };

    fn cell(&self, array: u32, index: u32) -> Value {
        self.cell(array, index)
    }

    fn layer<'a>(&'a self, alloc: Global) -> Overlay<'a> {
        Overlay::over_store(alloc, self)
    }
}

impl<'v> View for Overlay<'v> {
    ghost stands = { λ overlay. overlay.stands };

    fn cell(&self, array: u32, index: u32) -> Value {
        self.cell(array, index)
    }

    fn layer<'a>(&'a self, alloc: Global) -> Overlay<'a> {
        Overlay::over(alloc, &*self)
    }
}
