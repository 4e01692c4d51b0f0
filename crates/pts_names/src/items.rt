//! Names in items.

ghost use Rattle.std.specs.Prelude.{◌≡◌, ◌∷◌, ◌++◌, IfOk, OnOk, flat_map};
ghost use Rattle.pts_rules.specs.Parts as spec;
ghost use Rattle.pts_names.specs.Entered.{misses, repeats};
ghost use Rattle.pts_rules.specs.Names as rules;

use crate::blocks::{tasks_clash, tasks_miss};
use crate::expressions::expr_misses;
use crate::locals::{enter_local, enter_params};
use crate::loops::{loop_misses, loop_repeats};
use crate::parts::{call_misses, name_is_missing, sum_misses, val_misses};
use pts_rules::Scope;
use pts_tree::{FunctionDecl, Item, Start, Val};
use pts_types::NoMemory;
use std::alloc::Global;

#[tactic(auto, using(crate::proofs::Missing::turns))]
fn vals_miss(scope: &Scope, vals: &[Val]) -> bool
    ensures { result ≡ misses scope.now (flat_map spec.val_names vals.now) }
{
    for val in vals {
        if val_misses(scope, val) {
            return true;
        }
    }
    false
}

#[tactic(auto, using(crate::proofs::Missing::parts))]
fn start_misses(scope: &Scope, start: &Start) -> bool
    ensures { result ≡ misses scope.now (spec.start_names start.now) }
{
    match start {
        Start::List(vals) => vals_miss(scope, vals.as_slice()),
        Start::Fill(val) => val_misses(scope, val),
        Start::Iota(first, step) => sum_misses(scope, first) || sum_misses(scope, step),
        Start::Mix(seed) => sum_misses(scope, seed),
    }
}

// The function's own name is not in scope in its body.
fn function_misses(alloc: Global, scope: &mut Scope, x: &FunctionDecl) -> Result<bool, NoMemory>
    ensures answer { IfOk result (λ b. b ≡ misses scope.old (spec.without (spec.param_names x.now.params) (spec.expr_names x.now.body))) }
    ensures same { OnOk result (scope.new ≡ scope.old) }
{
    let mark = scope.len();
    let _again = enter_params(alloc, scope, x.params.as_slice())?;
    let missing = expr_misses(scope, &x.body);
    scope.leave(mark);
    Ok(missing)
}

// No parameter may have the name of the function either.
fn function_repeats(alloc: Global, scope: &mut Scope, x: &FunctionDecl) -> Result<bool, NoMemory>
    ensures answer { IfOk result (λ b. b ≡ repeats scope.old (x.now.name ∷ spec.param_names x.now.params)) }
    ensures same { OnOk result (scope.new ≡ scope.old) }
{
    let mark = scope.len();
    let mut again = enter_local(alloc, scope, &x.name)?;
    again |= enter_params(alloc, scope, x.params.as_slice())?;
    scope.leave(mark);
    Ok(again)
}

/// Whether the item uses a name that is not in scope and that is no local name of its own. The scope is left as it was.
#[tactic(auto, using(crate::proofs::ItemNames::unknown_parts))]
pub fn uses_unknown(alloc: Global, scope: &mut Scope, item: &Item) -> Result<bool, NoMemory>
    ensures answer { IfOk result (λ b. b ≡ rules.is_unknown scope.old item.now) }
    ensures same { OnOk result (scope.new ≡ scope.old) }
{
    match item {
        Item::Const(x) => Ok(sum_misses(scope, &x.value)),
        Item::Array(x) => Ok(sum_misses(scope, &x.length) || start_misses(scope, &x.start)),
        Item::Function(x) => function_misses(alloc, scope, x),
        Item::Call(x) => Ok(call_misses(scope, x)),
        Item::Loop(x) => loop_misses(alloc, scope, x),
        Item::Block(x) => tasks_miss(alloc, scope, x.body.as_slice()),
        Item::Print(name) => Ok(name_is_missing(scope, name)),
    }
}

/// Whether the item declares a name that is in scope, or has a local name that is in scope, that is its own name or that
/// is another local name of the same function or loop. The scope is left as it was.
#[tactic(auto, using(crate::proofs::ItemNames::twice_parts))]
pub fn declares_twice(alloc: Global, scope: &mut Scope, item: &Item) -> Result<bool, NoMemory>
    ensures answer { IfOk result (λ b. b ≡ rules.is_twice scope.old item.now) }
    ensures same { OnOk result (scope.new ≡ scope.old) }
{
    match item {
        Item::Const(x) => Ok(!name_is_missing(scope, &x.name)),
        Item::Array(x) => Ok(!name_is_missing(scope, &x.name)),
        Item::Function(x) => function_repeats(alloc, scope, x),
        Item::Loop(x) => loop_repeats(alloc, scope, x),
        Item::Block(x) => tasks_clash(alloc, scope, x.body.as_slice()),
        Item::Call(_) | Item::Print(_) => Ok(false),
    }
}
