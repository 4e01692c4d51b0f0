//! The names of a program's arrays and functions.

ghost use Rattle.std.specs.Prelude.{◌≡◌, [], ◌∷◌, IfOk, OnOk, fold, pos};
ghost use Rattle.pts_rules.specs.declared.meaning.Meaning.TheVariants.{Array};
ghost use Rattle.pts_code.specs.Functions.{with_signature};
ghost use Rattle.pts_steps.specs.Building.{IsAtGlobals};

use crate::builder::Builder;
use pts_code::{FunctionInfo, enter_functions};
use pts_rules::{Meaning, Scope};
use pts_tree::Name;
use pts_types::{Kind, NoMemory};
use sqlite_items::Items;
use std::alloc::Global;
use std::marker::Model;

/// The names of arrays and functions, the latest first, as `compile` asks for them: arrays have length 0, and functions no depth
/// and no size.
#[derive(Drop)]
pub struct Globals {
    globals: Scope,
    // The same again, for the names that loops add to them.
    kinds: Scope,
    names: Scope,
}

impl Model for Globals {
    ghost use Rattle.pts_rules.specs.Known as known;
    ghost use Rattle.pts_steps.specs.Scopes.{AreGlobals};

    ghost Value = { known.Scope };

    ghost view = { λ g. g.globals };

    ghost invariant = { λ g. AreGlobals g.globals g.kinds g.names };
}

fn enter_array(alloc: Global, scope: &mut Scope, name: &Name, kind: Kind) -> Result<(), NoMemory>
    ensures { OnOk result (scope.new ≡ (name.now, Array kind (pos 0)) ∷ scope.old) }
{
    scope.enter(alloc, name, Meaning::Array(kind, 0))
}

impl Globals {
    /// No names.
    pub fn new(alloc: Global) -> Globals
        ensures { result ≡ [] }
    {
        Globals {
            globals: Scope::new(alloc),
            kinds: Scope::new(alloc),
            names: Scope::new(alloc),
        }
    }

    /// An array more.
    pub fn with_array(self, alloc: Global, name: &Name, kind: Kind) -> Result<Globals, NoMemory>
        ensures { IfOk result (λ g. g ≡ (name.now, Array kind (pos 0)) ∷ self) }
    {
        let Globals {
            mut globals,
            mut kinds,
            mut names,
        } = self;
        enter_array(alloc, &mut globals, name, kind)?;
        enter_array(alloc, &mut kinds, name, kind)?;
        enter_array(alloc, &mut names, name, kind)?;
        Ok(Globals {
            globals,
            kinds,
            names,
        })
    }

    /// Functions more.
    pub fn with_functions(
        self,
        alloc: Global,
        functions: &[FunctionInfo],
    ) -> Result<Globals, NoMemory>
        ensures { IfOk result (λ g. g ≡ fold with_signature self functions.now) }
    {
        let Globals {
            mut globals,
            mut kinds,
            mut names,
        } = self;
        enter_functions(alloc, &mut globals, functions)?;
        enter_functions(alloc, &mut kinds, functions)?;
        enter_functions(alloc, &mut names, functions)?;
        Ok(Globals {
            globals,
            kinds,
            names,
        })
    }

    /// Between loops, where these names alone are in scope.
    pub(crate) fn into_builder(self, alloc: Global) -> Builder
        ensures between { IsAtGlobals result }
        ensures globals { result.globals ≡ self }
        ensures none { result.steps ≡ [] }
    {
        let Globals {
            globals,
            kinds,
            names,
        } = self;
        Builder {
            globals,
            kinds,
            names,
            spots: Items::new(alloc),
            steps: Items::new(alloc),
        }
    }
}
