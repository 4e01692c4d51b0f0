//! The builder.

ghost use Rattle.std.specs.Prelude.{◌≡◌, ◌⊎◌, ℕ, ◌+◌, ◌≤◌, [], ◌∷◌, ◌++◌, List, length, IfErr, IfOk, OnOk};
ghost use Rattle.pts_tree.specs.declared.script.Item.{Item as ItemTree};
ghost use Rattle.pts_rules.specs.Scopes.{known};
ghost use Rattle.pts_syntax.specs.Syntax.{IsSpelled};
ghost use Rattle.pts_program.specs.declared.fault.BuildFault.TheVariants as faults;
ghost use Rattle.pts_program.specs.Building.{CanAdd};
ghost use Rattle.pts_program.specs.Faults.{IsFaultAt, IsSound};
ghost use Rattle.pts_program.specs.Lists as spec;
ghost use Rattle.pts_program.specs.Standings.{IsStanding};
ghost use Rattle.pts_program.specs.Findings.{IsVerdict};

use crate::checks::check_item;
use crate::fault::BuildFault;
use crate::lists::{Lists, add_item};
use crate::program::Program;
use crate::standing::Standing;
use crate::steps::steps_of;
use pts_tree::{Item, Script};
use std::alloc::Global;

/// What was made of the items so far, and how many they are.
#[derive(Drop)]
pub struct Builder {
    standing: Standing,
    lists: Lists,
    items: u32,
}

impl Builder {
    fn new(alloc: Global) -> Builder
        ensures standing { IsStanding [] result.standing }
        ensures lists { result.lists ≡ spec.no_lists }
        ensures items { result.items ≡ 0 }
    {
        Builder {
            standing: Standing::new(alloc),
            lists: Lists::new(alloc),
            items: 0,
        }
    }

    // One item more, or the fault that it has.
    #[tactic(auto, using(crate::proofs::Declared::declarable))]
    fn add(&mut self, alloc: Global, item: &Item) -> Result<(), BuildFault>
        requires { CanAdd self.old }
        ensures verdict { (before : List ItemTree) → IsStanding before self.old.standing → IsVerdict before item.now (self.old.items + 1) result }
        ensures standing { OnOk result ((before : List ItemTree) → IsStanding before self.old.standing → IsStanding (before ++ item.now ∷ []) self.new.standing) }
        ensures lists { OnOk result (self.new.lists ≡ spec.with_item self.old.standing.scope (self.old.items + 1) self.old.lists item.now) }
        ensures items { OnOk result (self.new.items ≡ self.old.items + 1) }
        ensures few { OnOk result (self.new.standing.statements ≤ self.old.standing.statements + 1) }
    {
        let number = self.items + 1;
        check_item(alloc, &mut self.standing, number, item)?;
        add_item(alloc, &self.standing.scope, number, item, &mut self.lists)?;
        self.standing.declare(alloc, item)?;
        self.items = number;
        Ok(())
    }
}

/// The program of a script that the grammar spells in fewer than 2^32 tokens, or the fault of its first item that breaks a
/// rule, which names the first rule that it breaks.
#[tactic(auto, using(crate::proofs::Ways::started, crate::proofs::Ways::one_more, crate::proofs::Ways::finished, crate::proofs::Ways::programmed, crate::proofs::Ways::room))]
pub fn build(alloc: Global, script: &Script) -> Result<Program, BuildFault>
    requires { IsSpelled script.now }
    ensures program { IfOk result (λ program. IsSound script.now × (program ≡ spec.lists_of script.now)) }
    ensures fault { IfErr result (λ fault. (fault ≡ faults.NoMemory) ⊎ ((n : ℕ) × IsFaultAt script.now n fault)) }
{
    let mut builder = Builder::new(alloc);
    for item in script.items.as_slice() {
        builder.add(alloc, item)?;
    }
    let steps = steps_of(alloc, &builder.lists)?;
    Ok(Program::new(builder.lists, steps))
}
