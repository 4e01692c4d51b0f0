//! Lists that grow up to a place by empty parts.

ghost use Rattle.std.specs.Prelude.{◌≡◌, ◌≤◌, ℕ, min, OnOk, get_or, length, vec_len};

use std::alloc::{AllocError, Global};

/// A part of a list that begins empty.
pub trait Part: Drop {
    ghost empty: { Self };

    /// A part that holds nothing. It takes no memory.
    fn nothing(alloc: Global) -> Self
        ensures { result ≡ empty };
}

/// Makes the list at least so long. What is new is empty, and what was there stays, with want of memory too.
#[tactic(auto, using(crate::proofs::PaddedLists::padded))]
pub fn pad<T: Part>(alloc: Global, parts: &mut Vec<T>, count: usize) -> Result<(), AllocError>
    ensures count { OnOk result (count ≤ vec_len parts.new) }
    ensures kept { (k : ℕ) → get_or parts.new.items k T.empty ≡ get_or parts.old.items k T.empty }
{
    let first = parts.len();
    if first < count {
        parts.reserve(count - first)?;
        for _at in first..count {
            parts.push(T::nothing(alloc))?;
        }
    }
    Ok(())
}

/// The smaller of two numbers.
pub fn least(x: usize, y: usize) -> usize
    ensures { result ≡ min x y }
{
    if x < y { x } else { y }
}
