//! Writing calls.

ghost use Rattle.std.specs.Prelude.{◌≡◌, OnOk};
ghost use Rattle.pts_tree.specs.Spelling as spec;
ghost use Rattle.pts_print.specs.Printing.{Puts};

use super::sums::{put_cell, put_range, put_val};
use super::{put_mark, put_name};
use pts_tree::{Call, CallForm, Cell, Mark, Name, Op, Range, Val};
use pts_types::{Kind, Policy, ScalarOp};
use std::alloc::AllocError;

fn form_mark(form: CallForm) -> Mark
    ensures { result ≡ spec.form form }
{
    match form {
        CallForm::ForEach => Mark::ForEach,
        CallForm::Transform => Mark::Transform,
        CallForm::FindIf => Mark::FindIf,
        CallForm::CountIf => Mark::CountIf,
        CallForm::Reduce => Mark::Reduce,
        CallForm::TransformReduce => Mark::TransformReduce,
        CallForm::InclusiveScan => Mark::InclusiveScan,
        CallForm::ExclusiveScan => Mark::ExclusiveScan,
        CallForm::TransformInclusiveScan => Mark::TransformInclusiveScan,
        CallForm::TransformExclusiveScan => Mark::TransformExclusiveScan,
    }
}

/// The word of a policy.
pub fn policy_mark(policy: Policy) -> Mark
    ensures { result ≡ spec.policy policy }
{
    match policy {
        Policy::Seq => Mark::Seq,
        Policy::Par => Mark::Par,
        Policy::ParUnseq => Mark::ParUnseq,
        Policy::Unseq => Mark::Unseq,
        Policy::Vector => Mark::Vector,
    }
}

/// The word of a kind.
pub fn kind_mark(kind: Kind) -> Mark
    ensures { result ≡ spec.kind kind }
{
    match kind {
        Kind::I64 => Mark::I64,
        Kind::U64 => Mark::U64,
        Kind::Bool => Mark::Bool,
    }
}

fn op_mark(op: ScalarOp) -> Option<Mark>
    ensures { result ≡ spec.op_mark op }
{
    match op {
        ScalarOp::Plus => Some(Mark::Plus),
        ScalarOp::Multiplies => Some(Mark::Multiplies),
        ScalarOp::BitAnd => Some(Mark::BitAnd),
        ScalarOp::BitOr => Some(Mark::BitOr),
        ScalarOp::BitXor => Some(Mark::BitXor),
        ScalarOp::Min => Some(Mark::Min),
        ScalarOp::Max => Some(Mark::Max),
        _ => None,
    }
}

/// A word or symbol, or nothing.
pub fn put_optional_mark(out: &mut Vec<u8>, mark: Option<Mark>) -> Result<(), AllocError>
    ensures { OnOk result (Puts (spec.optional spec.word mark) out.old.items out.new.items) }
{
    match mark {
        Some(mark) => put_mark(out, mark),
        None => Ok(()),
    }
}

/// An operation of a sum.
pub fn put_op(out: &mut Vec<u8>, op: &Op) -> Result<(), AllocError>
    ensures { OnOk result (Puts (spec.op op.now) out.old.items out.new.items) }
{
    match op {
        Op::Table(op) => put_optional_mark(out, op_mark(*op)),
        Op::Name(name) => put_name(out, name),
    }
}

fn put_second_range(out: &mut Vec<u8>, range: &Option<Range>) -> Result<(), AllocError>
    ensures { OnOk result (Puts (spec.optional spec.second_range range.now) out.old.items out.new.items) }
{
    if let Some(range) = range {
        put_mark(out, Mark::Comma)?;
        put_range(out, range)?;
    }
    Ok(())
}

fn put_target_range(out: &mut Vec<u8>, range: &Option<Range>) -> Result<(), AllocError>
    ensures { OnOk result (Puts (spec.optional spec.target_range range.now) out.old.items out.new.items) }
{
    if let Some(range) = range {
        put_mark(out, Mark::Arrow)?;
        put_range(out, range)?;
    }
    Ok(())
}

fn put_init(out: &mut Vec<u8>, init: &Option<Val>) -> Result<(), AllocError>
    ensures { OnOk result (Puts (spec.optional spec.init_part init.now) out.old.items out.new.items) }
{
    if let Some(init) = init {
        put_mark(out, Mark::Init)?;
        put_val(out, init)?;
    }
    Ok(())
}

fn put_optional_op(out: &mut Vec<u8>, op: &Option<Op>) -> Result<(), AllocError>
    ensures { OnOk result (Puts (spec.optional spec.op op.now) out.old.items out.new.items) }
{
    match op {
        Some(op) => put_op(out, op),
        None => Ok(()),
    }
}

fn put_function(out: &mut Vec<u8>, function: &Option<Name>) -> Result<(), AllocError>
    ensures { OnOk result (Puts (spec.optional spec.name function.now) out.old.items out.new.items) }
{
    match function {
        Some(name) => put_name(out, name),
        None => Ok(()),
    }
}

fn put_store(out: &mut Vec<u8>, store: &Option<Cell>) -> Result<(), AllocError>
    ensures { OnOk result (Puts (spec.optional spec.into store.now) out.old.items out.new.items) }
{
    if let Some(cell) = store {
        put_mark(out, Mark::Into)?;
        put_cell(out, cell)?;
    }
    Ok(())
}

/// A call.
pub fn put_call(out: &mut Vec<u8>, call: &Call) -> Result<(), AllocError>
    ensures { OnOk result (Puts (spec.call call.now) out.old.items out.new.items) }
{
    put_mark(out, form_mark(call.form))?;
    put_mark(out, policy_mark(call.policy))?;
    put_range(out, &call.first)?;
    put_second_range(out, &call.second)?;
    put_target_range(out, &call.target)?;
    put_init(out, &call.init)?;
    put_optional_op(out, &call.op)?;
    put_function(out, &call.function)?;
    put_store(out, &call.store)?;
    put_mark(out, Mark::Semicolon)
}
