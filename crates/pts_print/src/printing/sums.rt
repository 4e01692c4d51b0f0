//! Writing sums and what they measure.

ghost use Rattle.std.specs.Prelude.{OnOk};
ghost use Rattle.pts_tree.specs.Spelling as spec;
ghost use Rattle.pts_print.specs.Printing.{Puts};

use super::{put_mark, put_name, put_number};
use pts_tree::{Atom, Cell, Mark, Range, Sum, SumPart, Val};
use std::alloc::AllocError;

fn put_atom(out: &mut Vec<u8>, atom: &Atom) -> Result<(), AllocError>
    ensures { OnOk result (Puts (spec.atom atom.now) out.old.items out.new.items) }
{
    match atom {
        Atom::Number(number) => put_number(out, *number),
        Atom::Name(name) => put_name(out, name),
    }
}

fn put_sum_part(out: &mut Vec<u8>, part: &SumPart) -> Result<(), AllocError>
    ensures { OnOk result (Puts (spec.sum_part part.now) out.old.items out.new.items) }
{
    let sign = if part.minus {
        Mark::MinusSign
    } else {
        Mark::PlusSign
    };
    put_mark(out, sign)?;
    put_atom(out, &part.atom)
}

#[tactic(auto, using(crate::proofs::Turns::turns))]
fn put_sum_parts(out: &mut Vec<u8>, parts: &[SumPart]) -> Result<(), AllocError>
    ensures { OnOk result (Puts (spec.each spec.sum_part parts.now) out.old.items out.new.items) }
{
    for part in parts {
        put_sum_part(out, part)?;
    }
    Ok(())
}

fn put_minus(out: &mut Vec<u8>, negative: bool) -> Result<(), AllocError>
    ensures { OnOk result (Puts (spec.minus negative) out.old.items out.new.items) }
{
    if negative {
        put_mark(out, Mark::MinusSign)?;
    }
    Ok(())
}

/// A sum.
pub fn put_sum(out: &mut Vec<u8>, sum: &Sum) -> Result<(), AllocError>
    ensures { OnOk result (Puts (spec.sum sum.now) out.old.items out.new.items) }
{
    put_minus(out, sum.negative)?;
    put_atom(out, &sum.first)?;
    put_sum_parts(out, sum.rest.as_slice())
}

/// A value.
pub fn put_val(out: &mut Vec<u8>, val: &Val) -> Result<(), AllocError>
    ensures { OnOk result (Puts (spec.val val.now) out.old.items out.new.items) }
{
    match val {
        Val::Sum(sum) => put_sum(out, sum),
        Val::True => put_mark(out, Mark::True),
        Val::False => put_mark(out, Mark::False),
    }
}

/// A range.
pub fn put_range(out: &mut Vec<u8>, range: &Range) -> Result<(), AllocError>
    ensures { OnOk result (Puts (spec.range range.now) out.old.items out.new.items) }
{
    put_name(out, &range.array)?;
    put_mark(out, Mark::OpenBracket)?;
    put_sum(out, &range.low)?;
    put_mark(out, Mark::Range)?;
    put_sum(out, &range.high)?;
    put_mark(out, Mark::CloseBracket)
}

/// A cell.
pub fn put_cell(out: &mut Vec<u8>, cell: &Cell) -> Result<(), AllocError>
    ensures { OnOk result (Puts (spec.cell cell.now) out.old.items out.new.items) }
{
    put_name(out, &cell.array)?;
    put_mark(out, Mark::OpenBracket)?;
    put_sum(out, &cell.index)?;
    put_mark(out, Mark::CloseBracket)
}
