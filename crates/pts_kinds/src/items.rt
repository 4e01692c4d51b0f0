//! Items.

ghost use Rattle.std.specs.Prelude.{◌≡◌, ◌++◌, IfOk, OnOk, false, map};
ghost use Rattle.pts_rules.specs.Kinds.{fits};
ghost use Rattle.pts_rules.specs.Mistyped as spec;
ghost use Rattle.pts_rules.specs.Scopes.{param_entry};
ghost use Rattle.pts_kinds.specs.Shown.{const_right};

use crate::calls::call_right;
use crate::exprs::expr_typing;
use crate::loops::loop_right;
use crate::names::kind_of_array;
use crate::starts::array_right;
use crate::tasks::block_right;
use pts_rules::{Meaning, Scope, sum_value};
use pts_tree::{ConstDecl, FunctionDecl, Item, Param};
use pts_types::NoMemory;
use std::alloc::Global;

// A constant lies in one of `i64` and `u64`.
fn const_right(scope: &Scope, decl: &ConstDecl) -> bool
    ensures { result ≡ const_right scope.now decl.now }
{
    match sum_value(scope, &decl.value) {
        Some(number) => i128::from(i64::MIN) <= number && number <= i128::from(u64::MAX),
        None => false,
    }
}

// The last one first, so that the first one is the latest name.
fn enter_params(scope: &mut Scope, alloc: Global, params: &[Param]) -> Result<(), NoMemory>
    ensures { OnOk result (scope.new ≡ map param_entry params.now ++ scope.old) }
{
    for at in (0..params.len()).rev() {
        scope.enter(alloc, &params[at].name, Meaning::Value(params[at].kind))?;
    }
    Ok(())
}

// The body has the function's kind and reads no elements.
#[tactic(auto, using(crate::proofs::Above::left_front, crate::proofs::Same::typing_parts))]
fn function_right(scope: &mut Scope, alloc: Global, decl: &FunctionDecl) -> Result<bool, NoMemory>
    ensures answer { IfOk result (λ b. b ≡ fits false (map param_entry decl.now.params ++ scope.old) decl.now.kind decl.now.body) }
    ensures same { OnOk result (scope.new ≡ scope.old) }
{
    let mark = scope.len();
    enter_params(scope, alloc, decl.params.as_slice())?;
    let right = expr_typing(scope, false, &decl.body).fits.has(decl.kind);
    scope.leave(mark);
    Ok(right)
}

/// Whether names are of the sort, numbers in the range and expressions of the kind that their places ask, where the names
/// of the scope are known. The scope is as before.
#[tactic(auto, using(crate::proofs::Every::every_one_alone))]
pub fn is_right(alloc: Global, scope: &mut Scope, item: &Item) -> Result<bool, NoMemory>
    ensures answer { IfOk result (λ b. b ≡ spec.item_right scope.old item.now) }
    ensures same { OnOk result (scope.new ≡ scope.old) }
{
    match item {
        Item::Const(decl) => Ok(const_right(scope, decl)),
        Item::Array(decl) => Ok(array_right(scope, decl)),
        Item::Function(decl) => function_right(scope, alloc, decl),
        Item::Call(call) => Ok(call_right(scope, call)),
        Item::Loop(x) => loop_right(scope, alloc, x),
        Item::Block(block) => block_right(scope, alloc, block),
        Item::Print(array) => Ok(kind_of_array(scope, array).is_some()),
    }
}
