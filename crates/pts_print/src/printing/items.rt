//! Writing declarations and other items.

ghost use Rattle.std.specs.Prelude.{◌≡◌, OnOk};
ghost use Rattle.pts_tree.specs.Spelling.{each, separated, val};
ghost use Rattle.pts_tree.specs.Scripts as spec;
ghost use Rattle.pts_print.specs.Printing.{Puts};

use super::calls::{kind_mark, put_call};
use super::expressions::put_expr;
use super::statements::{put_block, put_loop};
use super::sums::{put_sum, put_val};
use super::{put_mark, put_name, put_number};
use pts_tree::{ArrayDecl, ConstDecl, FunctionDecl, Item, Mark, Name, Param, Start, Sum, Val};
use std::alloc::AllocError;

fn put_const(out: &mut Vec<u8>, decl: &ConstDecl) -> Result<(), AllocError>
    ensures { OnOk result (Puts (spec.const_decl decl.now) out.old.items out.new.items) }
{
    put_mark(out, Mark::Const)?;
    put_name(out, &decl.name)?;
    put_mark(out, Mark::Equal)?;
    put_sum(out, &decl.value)?;
    put_mark(out, Mark::Semicolon)
}

fn put_next_val(out: &mut Vec<u8>, value: &Val) -> Result<(), AllocError>
    ensures { OnOk result (Puts (spec.next_val value.now) out.old.items out.new.items) }
{
    put_mark(out, Mark::Comma)?;
    put_val(out, value)
}

#[tactic(auto, using(crate::proofs::Turns::turns))]
fn put_next_vals(out: &mut Vec<u8>, values: &[Val]) -> Result<(), AllocError>
    ensures { OnOk result (Puts (each spec.next_val values.now) out.old.items out.new.items) }
{
    for value in values {
        put_next_val(out, value)?;
    }
    Ok(())
}

// Values with a comma between any two.
fn put_vals(out: &mut Vec<u8>, values: &[Val]) -> Result<(), AllocError>
    ensures { OnOk result (Puts (spec.vals values.now) out.old.items out.new.items) }
{
    match values.split_first() {
        None => Ok(()),
        Some((first, rest)) => {
            put_val(out, first)?;
            put_next_vals(out, rest)
        }
    }
}

fn put_list(out: &mut Vec<u8>, values: &[Val]) -> Result<(), AllocError>
    ensures { OnOk result (Puts (spec.list values.now) out.old.items out.new.items) }
{
    put_mark(out, Mark::List)?;
    put_vals(out, values)
}

fn put_fill(out: &mut Vec<u8>, value: &Val) -> Result<(), AllocError>
    ensures { OnOk result (Puts (spec.fill value.now) out.old.items out.new.items) }
{
    put_mark(out, Mark::Fill)?;
    put_val(out, value)
}

fn put_iota(out: &mut Vec<u8>, first: &Sum, step: &Sum) -> Result<(), AllocError>
    ensures { OnOk result (Puts (spec.iota first.now step.now) out.old.items out.new.items) }
{
    put_mark(out, Mark::Iota)?;
    put_sum(out, first)?;
    put_mark(out, Mark::Step)?;
    put_sum(out, step)
}

fn put_mix(out: &mut Vec<u8>, seed: &Sum) -> Result<(), AllocError>
    ensures { OnOk result (Puts (spec.mix seed.now) out.old.items out.new.items) }
{
    put_mark(out, Mark::Mix)?;
    put_sum(out, seed)
}

fn put_start(out: &mut Vec<u8>, start: &Start) -> Result<(), AllocError>
    ensures { OnOk result (Puts (spec.start start.now) out.old.items out.new.items) }
{
    match start {
        Start::List(values) => put_list(out, values.as_slice()),
        Start::Fill(value) => put_fill(out, value),
        Start::Iota(first, step) => put_iota(out, first, step),
        Start::Mix(seed) => put_mix(out, seed),
    }
}

fn put_array(out: &mut Vec<u8>, decl: &ArrayDecl) -> Result<(), AllocError>
    ensures { OnOk result (Puts (spec.array_decl decl.now) out.old.items out.new.items) }
{
    put_mark(out, Mark::Array)?;
    put_name(out, &decl.name)?;
    put_mark(out, Mark::Colon)?;
    put_mark(out, kind_mark(decl.kind))?;
    put_mark(out, Mark::OpenBracket)?;
    put_sum(out, &decl.length)?;
    put_mark(out, Mark::CloseBracket)?;
    put_mark(out, Mark::Equal)?;
    put_start(out, &decl.start)?;
    put_mark(out, Mark::Semicolon)
}

fn put_param(out: &mut Vec<u8>, param: &Param) -> Result<(), AllocError>
    ensures { OnOk result (Puts (spec.param param.now) out.old.items out.new.items) }
{
    put_name(out, &param.name)?;
    put_mark(out, Mark::Colon)?;
    put_mark(out, kind_mark(param.kind))
}

fn put_next_param(out: &mut Vec<u8>, param: &Param) -> Result<(), AllocError>
    ensures { OnOk result (Puts (spec.next_param param.now) out.old.items out.new.items) }
{
    put_mark(out, Mark::Comma)?;
    put_param(out, param)
}

#[tactic(auto, using(crate::proofs::Turns::turns))]
fn put_next_params(out: &mut Vec<u8>, params: &[Param]) -> Result<(), AllocError>
    ensures { OnOk result (Puts (each spec.next_param params.now) out.old.items out.new.items) }
{
    for param in params {
        put_next_param(out, param)?;
    }
    Ok(())
}

// Parameters with a comma between any two.
fn put_params(out: &mut Vec<u8>, params: &[Param]) -> Result<(), AllocError>
    ensures { OnOk result (Puts (spec.params params.now) out.old.items out.new.items) }
{
    match params.split_first() {
        None => Ok(()),
        Some((first, rest)) => {
            put_param(out, first)?;
            put_next_params(out, rest)
        }
    }
}

fn put_function(out: &mut Vec<u8>, decl: &FunctionDecl) -> Result<(), AllocError>
    ensures { OnOk result (Puts (spec.function_decl decl.now) out.old.items out.new.items) }
{
    put_mark(out, Mark::Function)?;
    put_name(out, &decl.name)?;
    put_mark(out, Mark::OpenParen)?;
    put_params(out, decl.params.as_slice())?;
    put_mark(out, Mark::CloseParen)?;
    put_mark(out, Mark::Arrow)?;
    put_mark(out, kind_mark(decl.kind))?;
    put_mark(out, Mark::Equal)?;
    put_expr(out, &decl.body)?;
    put_mark(out, Mark::Semicolon)
}

fn put_print(out: &mut Vec<u8>, name: &Name) -> Result<(), AllocError>
    ensures { OnOk result (Puts (spec.print name.now) out.old.items out.new.items) }
{
    put_mark(out, Mark::Print)?;
    put_name(out, name)?;
    put_mark(out, Mark::Semicolon)
}

/// An item.
pub fn put_item(out: &mut Vec<u8>, item: &Item) -> Result<(), AllocError>
    ensures { OnOk result (Puts (spec.item item.now) out.old.items out.new.items) }
{
    match item {
        Item::Const(decl) => put_const(out, decl),
        Item::Array(decl) => put_array(out, decl),
        Item::Function(decl) => put_function(out, decl),
        Item::Call(call) => put_call(out, call),
        Item::Loop(x) => put_loop(out, x),
        Item::Block(block) => put_block(out, block),
        Item::Print(name) => put_print(out, name),
    }
}

/// The header with this version.
pub fn put_header(out: &mut Vec<u8>, version: u64) -> Result<(), AllocError>
    ensures { OnOk result (Puts (spec.header version) out.old.items out.new.items) }
{
    put_mark(out, Mark::Pts)?;
    put_number(out, version)?;
    put_mark(out, Mark::Semicolon)
}
