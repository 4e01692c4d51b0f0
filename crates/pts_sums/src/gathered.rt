//! Items that are made once and read more often.

ghost use Rattle.std.specs.Prelude.{◌≡◌, IfOk, length};

use crate::run::Run;
use crate::terms::{Combining, Terms};
use pts_boards::Gate;
use pts_types::{NoMemory, Value};
use std::alloc::{AllocError, Global};

/// The items of some terms by their positions.
#[derive(Drop)]
pub(crate) struct Gathered<'a, T> {
    pub terms: &'a T,
    pub count: u32,
    pub items: Vec<Option<Value>>,
}

impl<T: Combining> Combining for Gathered<'_, T> {
    ghost op = { λ gathered. T.op gathered.terms.now };

    fn combine(&self, x: Value, y: Value) -> Option<Value> {
        self.terms.combine(x, y)
    }
}

impl<T: Combining> Terms for Gathered<'_, T> {
    ghost condition = { λ gathered. gathered.count ≡ length gathered.items.items };

    ghost items = { λ gathered. gathered.items.items };

    fn count(&self) -> u32 {
        self.count
    }

    fn item(&self, at: u32) -> Option<Value> {
        self.items[at as usize]
    }
}

impl<V, G: Gate> Run<'_, V, G> {
    /// Makes each item once. Each chunk passes the gate before its first item.
    #[tactic(auto, using(crate::proofs::GatheredItems::gathered_more, crate::proofs::GatheredItems::all_gathered))]
    pub fn gather<'b, T: Terms>(
        &self,
        alloc: Global,
        terms: &'b T,
    ) -> Result<Gathered<'b, T>, NoMemory>
        requires { T.condition terms.now }
        ensures terms { IfOk result (λ gathered. gathered.terms.now ≡ terms.now) }
        ensures items { IfOk result (λ gathered. gathered.items.items ≡ T.items terms.now) }
        ensures count { IfOk result (λ gathered. gathered.count ≡ length gathered.items.items) }
    {
        let count = terms.count();
        let mut items = Vec::with_capacity(alloc, count as usize)?;
        for at in 0..count {
            self.pass_before(at);
            items.push(terms.item(at)).map_err(AllocError::from)?;
        }
        Ok(Gathered {
            terms,
            count,
            items,
        })
    }
}
