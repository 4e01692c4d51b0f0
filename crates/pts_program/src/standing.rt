//! What the items before an item leave to it.

ghost use Rattle.std.specs.Prelude.{◌≡◌, ◌+◌, ◌-◌, ◌<◌, ◌≤◌, ◌^◌, [], ◌∷◌, ◌++◌, List, map, IfOk, OnOk, IsTrue, false};
ghost use Rattle.pts_tree.specs.declared.script.Item.{Item as ItemTree};
ghost use Rattle.pts_tree.specs.declared.script.Item.TheVariants as items;
ghost use Rattle.pts_rules.specs.Mistyped.{item_right};
ghost use Rattle.pts_rules.specs.Limits as limits;
ghost use Rattle.pts_rules.specs.Scopes as spec;
ghost use Rattle.pts_program.specs.Standings.{cells_in, IsAcceptable, IsDeclarable, IsStanding};

use crate::lengths::length_of;
use pts_limits::{depth_of, number, size_of};
use pts_rules::{Meaning, Scope, Signature};
use pts_tree::{FunctionDecl, Item};
use pts_types::{Kind, NoMemory};
use sqlite_items::Items;
use std::alloc::{AllocError, Global};

/// The names that earlier items declare, and how many statements and cells they have.
#[derive(Drop)]
pub struct Standing {
    pub scope: Scope,
    pub statements: usize,
    pub cells: u64,
}

impl Standing {
    /// Before the first item.
    #[tactic(auto, using(crate::proofs::Declared::none_standing))]
    pub fn new(alloc: Global) -> Standing
        ensures { IsStanding [] result }
    {
        Standing {
            scope: Scope::new(alloc),
            statements: 0,
            cells: 0,
        }
    }

    /// Behind one more item.
    #[tactic(auto, using(crate::proofs::Declared::standing_more, crate::proofs::Declared::declarable))]
    pub fn declare(&mut self, alloc: Global, item: &Item) -> Result<(), NoMemory>
        requires acceptable { IsAcceptable self.old item.now }
        requires room { self.old.statements < 2 ^ 64 - 1 }
        ensures standing { OnOk result ((before : List ItemTree) → IsStanding before self.old → IsStanding (before ++ item.now ∷ []) self.new) }
        ensures few { OnOk result (self.new.statements ≤ self.old.statements + 1) }
    {
        self.cells += cells_of(&self.scope, item);
        self.statements += usize::from(is_statement(item));
        enter_item(alloc, &mut self.scope, item)?;
        Ok(())
    }
}

fn param_kinds(alloc: Global, function: &FunctionDecl) -> Result<Items<Kind>, AllocError>
    ensures { IfOk result (λ kinds. kinds ≡ map (λ p. p.kind) function.now.params) }
{
    let mut kinds = Items::new(alloc);
    for param in function.params.as_slice() {
        kinds.push(param.kind)?;
    }
    Ok(kinds)
}

fn signature(alloc: Global, scope: &Scope, function: &FunctionDecl) -> Result<Signature, AllocError>
    requires shallow { limits.is_too_deep scope.now (items.Function function.now) ≡ false }
    requires few { limits.is_large scope.now function.now ≡ false }
    ensures { IfOk result (λ s. s ≡ spec.signature scope.now function.now) }
{
    Ok(Signature {
        params: param_kinds(alloc, function)?,
        kind: function.kind,
        depth: depth_of(scope, &function.body) as u32,
        size: size_of(scope, &function.body) as u32,
    })
}

fn enter_function(alloc: Global, scope: &mut Scope, function: &FunctionDecl) -> Result<(), NoMemory>
    requires shallow { limits.is_too_deep scope.old (items.Function function.now) ≡ false }
    requires few { limits.is_large scope.old function.now ≡ false }
    ensures { OnOk result (scope.new ≡ spec.after scope.old (items.Function function.now)) }
{
    let signature = signature(alloc, scope, function)?;
    scope.enter(alloc, &function.name, Meaning::Function(signature))
}

fn enter_item(alloc: Global, scope: &mut Scope, item: &Item) -> Result<(), NoMemory>
    requires { IsDeclarable scope.old item.now }
    ensures { OnOk result (scope.new ≡ spec.after scope.old item.now) }
{
    match item {
        Item::Const(x) => {
            let value = number(scope, &x.value);
            scope.enter(alloc, &x.name, Meaning::Constant(value))
        }
        Item::Array(x) => {
            let length = length_of(scope, &x.length);
            scope.enter(alloc, &x.name, Meaning::Array(x.kind, length as i64))
        }
        Item::Function(x) => enter_function(alloc, scope, x),
        _ => Ok(()),
    }
}

fn cells_of(scope: &Scope, item: &Item) -> u64
    requires { IsTrue (item_right scope.now item.now) }
    ensures { result ≡ cells_in scope.now item.now }
{
    match item {
        Item::Array(x) => length_of(scope, &x.length) as u64,
        _ => 0,
    }
}

fn is_statement(item: &Item) -> bool
    ensures { result ≡ limits.is_statement item.now }
{
    !matches!(item, Item::Const(_) | Item::Array(_) | Item::Function(_))
}
