//! Writing the signs of a script, each with a space behind it.

ghost use Rattle.std.specs.Prelude.{◌≡◌, ◌<◌, ◌++◌, ◌∷◌, [], ℕ, List, flat_map, length, IfOk, OnOk};
ghost use Rattle.pts_print.specs.Canonical.{canonical, item_line, line, line_feed, space};
ghost use Rattle.pts_tree.specs.Scripts.{header};
ghost use Rattle.pts_tree.specs.Spelling as spec;
ghost use Rattle.pts_print.specs.Printing.{Puts};

use items::{put_header, put_item};
use itoa::Buffer;
use pts_tree::{Item, Mark, Name, Script};
use pts_types::NoMemory;
use std::alloc::{AllocError, Global};

mod calls;
mod expressions;
mod items;
mod statements;
mod sums;

/// A word or symbol.
pub fn put_mark(out: &mut Vec<u8>, mark: Mark) -> Result<(), AllocError>
    ensures { OnOk result (Puts (spec.word mark) out.old.items out.new.items) }
{
    out.extend_from_slice(mark.text())?;
    out.extend_from_slice(b" ")
}

/// A name.
pub fn put_name(out: &mut Vec<u8>, name: &Name) -> Result<(), AllocError>
    ensures { OnOk result (Puts (spec.name name.now) out.old.items out.new.items) }
{
    out.extend_from_slice(name.as_str().as_bytes())?;
    out.extend_from_slice(b" ")
}

/// A number, without leading zeros.
pub fn put_number(out: &mut Vec<u8>, number: u64) -> Result<(), AllocError>
    ensures { OnOk result (Puts (spec.number number) out.old.items out.new.items) }
{
    let mut buffer = Buffer::new();
    out.extend_from_slice(buffer.format(number).as_bytes())?;
    out.extend_from_slice(b" ")
}

// The space behind the last sign becomes a line feed.
fn end_line(out: &mut Vec<u8>)
    requires { 0 < length out.old.items }
    ensures { (front : List ℕ) → out.old.items ≡ front ++ space ∷ [] → out.new.items ≡ front ++ line_feed ∷ [] }
{
    let last = out.len() - 1;
    out[last] = b'\n';
}

fn put_header_line(out: &mut Vec<u8>, version: u64) -> Result<(), AllocError>
    ensures { OnOk result (out.new.items ≡ out.old.items ++ line (header version [])) }
{
    put_header(out, version)?;
    end_line(out);
    Ok(())
}

fn put_item_line(out: &mut Vec<u8>, item: &Item) -> Result<(), AllocError>
    ensures { OnOk result (out.new.items ≡ out.old.items ++ item_line item.now) }
{
    put_item(out, item)?;
    end_line(out);
    Ok(())
}

#[tactic(auto, using(crate::proofs::Lines::lines))]
fn put_item_lines(out: &mut Vec<u8>, items: &[Item]) -> Result<(), AllocError>
    ensures { OnOk result (out.new.items ≡ out.old.items ++ flat_map item_line items.now) }
{
    for item in items {
        put_item_line(out, item)?;
    }
    Ok(())
}

fn script_bytes(alloc: Global, script: &Script) -> Result<Vec<u8>, AllocError>
    ensures { IfOk result (λ bytes. bytes.items ≡ canonical script.now) }
{
    let mut out = Vec::new(alloc);
    put_header_line(&mut out, script.version)?;
    put_item_lines(&mut out, script.items.as_slice())?;
    Ok(out)
}

/// The canonical spelling of a script: a line for the header and one for each item, with one space between any two signs.
/// A tree that the grammar does not have is written in the same way, and its text spells no script.
pub fn print(alloc: Global, script: &Script) -> Result<Vec<u8>, NoMemory>
    ensures { IfOk result (λ bytes. bytes.items ≡ canonical script.now) }
{
    Ok(script_bytes(alloc, script)?)
}
