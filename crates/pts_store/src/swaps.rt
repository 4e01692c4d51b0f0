//! Two threads over one view, each with a layer of its own: what a thread reads and writes is known to whoever joins them.

ghost use Rattle.std.specs.Prelude.{◌≡◌, ◌≢◌, ℕ, ◌==◌, ◌&&◌, if◌then◌else◌, None, IfOk, slice_get};
ghost use Rattle.std.specs.Thread.{IsSync};
ghost use Rattle.pts_store.specs.Stores.{cells_in, IsCell};
ghost use Rattle.pts_store.specs.Writes.{written};

use crate::{View, Writes, merge};
use pts_types::NoMemory;
use std::alloc::Global;
use std::thread::{Threads, join};

// Writes the value of one cell to another one.
#[tactic(auto, using(crate::proofs::Empty::nothing_written))]
fn moved<V: View>(
    alloc: Global,
    view: &V,
    array: u32,
    from: u32,
    to: u32,
) -> Result<Writes, NoMemory>
    requires { IsCell (V.stands view.now) array from }
    ensures { IfOk result (λ w. (a i : ℕ) → written w a i ≡ (if a == array && i == to then slice_get (cells_in (V.stands view.now) array) from else None)) }
{
    let value = view.cell(array, from);
    let mut layer = view.layer(alloc);
    layer.set(array, to, value)?;
    Ok(layer.into_writes())
}

/// Writes the values of two cells to one another, each in a thread of its own.
pub fn swapped<V: View + Sync, R: Threads + Sync>(
    rt: &R,
    alloc: Global,
    view: &V,
    array: u32,
    low: u32,
    high: u32,
) -> Result<Writes, NoMemory>
    requires low { IsCell (V.stands view.now) array low }
    requires high { IsCell (V.stands view.now) array high }
    requires apart { low ≢ high }
    ensures low { IfOk result (λ w. written w array low ≡ slice_get (cells_in (V.stands view.now) array) high) }
    ensures high { IfOk result (λ w. written w array high ≡ slice_get (cells_in (V.stands view.now) array) low) }
{
    let (a, b) = join(
        rt,
        move || -> Result<Writes, NoMemory>
            requires { IsSync V.row × IsCell (V.stands view.now) array low }
            ensures { IfOk result (λ w. (a i : ℕ) → written w a i ≡ (if a == array && i == high then slice_get (cells_in (V.stands view.entry.now) array) low else None)) }
        { moved(alloc, view, array, low, high) },
        move || -> Result<Writes, NoMemory>
            requires { IsSync V.row × IsCell (V.stands view.now) array high }
            ensures { IfOk result (λ w. (a i : ℕ) → written w a i ≡ (if a == array && i == low then slice_get (cells_in (V.stands view.entry.now) array) high else None)) }
        { moved(alloc, view, array, high, low) },
    );
    let mut all = b?;
    let more = a?;
    merge(&mut all, &more)?;
    Ok(all)
}
