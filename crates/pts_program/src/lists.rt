//! The lists of a program, and what one item adds to them.

ghost use Rattle.std.specs.Prelude.{◌≡◌, [], ◌∷◌, false, ◌++◌, length, map, IsTrue, IfOk, OnOk, option_to_list};
ghost use Rattle.pts_tree.specs.declared.script.Item.TheVariants as items;
ghost use Rattle.pts_points.specs.Points as points;
ghost use Rattle.pts_rules.specs.Mistyped.{item_right};
ghost use Rattle.pts_rules.specs.Limits.{is_large};
ghost use Rattle.pts_rules.specs.Parts.{statements};
ghost use Rattle.pts_lowering.specs.Blocks as tasks;
ghost use Rattle.pts_lowering.specs.Fitting.{CanLower};
ghost use Rattle.pts_lowering.specs.Forms as forms;
ghost use Rattle.pts_program.specs.Lists as spec;
ghost use Rattle.pts_points.specs.Inside.{HasRoom};
ghost use Rattle.pts_program.specs.Standings.{is_large_function, IsAddable, IsDeclarable};

use crate::info::{ArrayInfo, StatementInfo};
use crate::lengths::length_of;
use pts_code::{Codes, FunctionInfo};
use pts_constants::{BlockInfo, CallText, add_blocks, add_texts, copy_name, resolve_expr};
use pts_lowering::{LoweredBlock, LoweredCall, add_lowered_blocks, add_lowered_calls};
use pts_points::{CallInfo, PointInfo, array_at, item_points};
use pts_rules::Scope;
use pts_starts::start_cells;
use pts_tree::{ArrayDecl, FunctionDecl, Item, Param};
use pts_types::NoMemory;
use sqlite_items::Items;
use std::alloc::{AllocError, Global};
use std::mem::replace;

/// The lists of a program, each in text order. The functions are kept with what computes their values.
#[derive(Drop)]
pub struct Lists {
    pub arrays: Items<ArrayInfo>,
    pub functions: Codes,
    pub statements: Items<StatementInfo>,
    pub calls: Items<CallInfo>,
    pub points: Items<PointInfo>,
    pub blocks: Items<BlockInfo>,
    pub texts: Items<CallText>,
    pub lowered_calls: Items<LoweredCall>,
    pub lowered_blocks: Items<LoweredBlock>,
}

impl Lists {
    /// The lists of no items.
    pub fn new(alloc: Global) -> Lists
        ensures { result ≡ spec.no_lists }
    {
        Lists {
            arrays: Items::new(alloc),
            functions: Codes::new(alloc),
            statements: Items::new(alloc),
            calls: Items::new(alloc),
            points: Items::new(alloc),
            blocks: Items::new(alloc),
            texts: Items::new(alloc),
            lowered_calls: Items::new(alloc),
            lowered_blocks: Items::new(alloc),
        }
    }
}

// A number of entries of a list, of which there is no room for more than 32 bits count.
fn entries(count: usize) -> Result<u32, NoMemory>
    ensures { IfOk result (λ n. n ≡ count) }
{
    match u32::try_from(count) {
        Ok(n) => Ok(n),
        Err(_) => Err(NoMemory),
    }
}

fn copy_params(alloc: Global, params: &[Param]) -> Result<Items<Param>, AllocError>
    ensures { IfOk result (λ copy. copy ≡ params.now) }
{
    let mut copy = Items::new(alloc);
    for param in params {
        copy.push(Param {
            name: copy_name(alloc, &param.name)?,
            kind: param.kind,
        })?;
    }
    Ok(copy)
}

fn array_info(alloc: Global, scope: &Scope, array: &ArrayDecl) -> Result<ArrayInfo, NoMemory>
    requires { IsTrue (item_right scope.now (items.Array array.now)) }
    ensures { IfOk result (λ info. info ∷ [] ≡ spec.arrays_of scope.now (items.Array array.now)) }
{
    let length = length_of(scope, &array.length);
    Ok(ArrayInfo {
        name: copy_name(alloc, &array.name)?,
        kind: array.kind,
        cells: start_cells(alloc, scope, array.kind, length, &array.start)?,
    })
}

fn function_info(
    alloc: Global,
    scope: &Scope,
    function: &FunctionDecl,
) -> Result<FunctionInfo, AllocError>
    ensures { IfOk result (λ info. info ∷ [] ≡ spec.functions_of scope.now (items.Function function.now)) }
{
    Ok(FunctionInfo {
        name: copy_name(alloc, &function.name)?,
        params: copy_params(alloc, function.params.as_slice())?,
        kind: function.kind,
        body: resolve_expr(alloc, scope, &function.body)?,
    })
}

fn add_array(
    alloc: Global,
    scope: &Scope,
    item: &Item,
    arrays: &mut Items<ArrayInfo>,
) -> Result<(), NoMemory>
    requires { IsTrue (item_right scope.now item.now) }
    ensures { OnOk result (arrays.new ≡ arrays.old ++ spec.arrays_of scope.now item.now) }
{
    if let Item::Array(array) = item {
        let info = array_info(alloc, scope, array)?;
        arrays.push(info)?;
    }
    Ok(())
}

#[tactic(auto, using(crate::proofs::Declared::pushable))]
fn push_function(
    alloc: Global,
    scope: &Scope,
    function: &FunctionDecl,
    functions: &mut Codes,
) -> Result<(), NoMemory>
    requires { is_large scope.now function.now ≡ false }
    ensures { OnOk result (functions.new ≡ functions.old ++ spec.functions_of scope.now (items.Function function.now)) }
{
    let info = function_info(alloc, scope, function)?;
    let earlier = replace(functions, Codes::new(alloc));
    *functions = earlier.push(alloc, info)?;
    Ok(())
}

fn add_function(
    alloc: Global,
    scope: &Scope,
    item: &Item,
    functions: &mut Codes,
) -> Result<(), NoMemory>
    requires { is_large_function scope.now item.now ≡ false }
    ensures { OnOk result (functions.new ≡ functions.old ++ spec.functions_of scope.now item.now) }
{
    if let Item::Function(function) = item {
        push_function(alloc, scope, function, functions)?;
    }
    Ok(())
}

fn statement_of(scope: &Scope, calls: u32, blocks: u32, item: &Item) -> Option<StatementInfo>
    requires { HasRoom scope.now }
    ensures { option_to_list result ≡ spec.statements_of scope.now calls blocks item.now }
{
    match item {
        Item::Call(_) => Some(StatementInfo::Call(calls)),
        Item::Loop(_) => Some(StatementInfo::Call(calls)),
        Item::Block(_) => Some(StatementInfo::Block(blocks)),
        Item::Print(array) => Some(StatementInfo::Print(array_at(scope, array))),
        _ => None,
    }
}

fn add_statement(
    scope: &Scope,
    calls: u32,
    blocks: u32,
    item: &Item,
    statements: &mut Items<StatementInfo>,
) -> Result<(), AllocError>
    requires { HasRoom scope.now }
    ensures { OnOk result (statements.new ≡ statements.old ++ spec.statements_of scope.now calls blocks item.now) }
{
    if let Some(statement) = statement_of(scope, calls, blocks, item) {
        statements.push(statement)?;
    }
    Ok(())
}

fn add_names(alloc: Global, scope: &Scope, item: &Item, lists: &mut Lists) -> Result<(), NoMemory>
    requires { IsDeclarable scope.now item.now }
    ensures { OnOk result (lists.new ≡ record lists.old {
      arrays = lists.old.arrays ++ spec.arrays_of scope.now item.now;
      functions = lists.old.functions ++ spec.functions_of scope.now item.now;
    }) }
{
    add_array(alloc, scope, item, &mut lists.arrays)?;
    add_function(alloc, scope, item, &mut lists.functions)
}

fn add_item_points(
    alloc: Global,
    scope: &Scope,
    number: u32,
    item: &Item,
    lists: &mut Lists,
) -> Result<(), NoMemory>
    requires { IsAddable scope.now (length lists.old.calls) item.now }
    ensures { OnOk result (lists.new ≡ record lists.old {
      points = lists.old.points ++ points.points_of scope.now number (length lists.old.calls) item.now;
      calls = lists.old.calls ++ points.calls_of scope.now number (length lists.old.calls) item.now;
    }) }
{
    let calls = entries(lists.calls.len())?;
    let new = item_points(alloc, scope, number, calls, item)?;
    lists.points.append(new.points)?;
    lists.calls.append(new.calls)?;
    Ok(())
}

fn add_lowered(
    alloc: Global,
    scope: &Scope,
    number: u32,
    calls: u32,
    blocks: u32,
    item: &Item,
    lists: &mut Lists,
) -> Result<(), NoMemory>
    requires { CanLower scope.now (statements item.now) }
    ensures { OnOk result (lists.new ≡ record lists.old {
      lowered_calls = lists.old.lowered_calls ++ forms.lowered_calls scope.now item.now;
      lowered_blocks = lists.old.lowered_blocks ++ tasks.lowered_blocks number calls blocks item.now;
    }) }
{
    add_lowered_calls(alloc, scope, item, &mut lists.lowered_calls)?;
    add_lowered_blocks(
        alloc,
        number,
        calls,
        blocks,
        item,
        &mut lists.lowered_blocks,
    )
}

/// Adds an item that breaks no rule to the lists of those before it, in the scope that these leave.
pub fn add_item(
    alloc: Global,
    scope: &Scope,
    number: u32,
    item: &Item,
    lists: &mut Lists,
) -> Result<(), NoMemory>
    requires { IsAddable scope.now (length lists.old.calls) item.now }
    ensures { OnOk result (lists.new ≡ spec.with_item scope.now number lists.old item.now) }
{
    let calls = entries(lists.calls.len())?;
    let blocks = entries(lists.blocks.len())?;
    add_names(alloc, scope, item, lists)?;
    add_statement(scope, calls, blocks, item, &mut lists.statements)?;
    add_item_points(alloc, scope, number, item, lists)?;
    add_lowered(alloc, scope, number, calls, blocks, item, lists)?;
    add_blocks(alloc, scope, number, item, &mut lists.blocks)?;
    add_texts(alloc, scope, item, &mut lists.texts)
}
