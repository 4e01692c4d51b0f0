//! What the points of a program's loops compute.

ghost use Rattle.std.specs.Prelude.{◌≡◌, IfOk, fold};
ghost use Rattle.pts_code.specs.Functions.{scope_of};
ghost use Rattle.pts_steps.specs.Texts.{AreAllSteps};
ghost use Rattle.pts_program.specs.Globals as spec;

use crate::info::ArrayInfo;
use crate::lists::Lists;
use pts_code::FunctionInfo;
use pts_steps::{Globals, Step, compile_loops};
use pts_types::NoMemory;
use sqlite_items::Items;
use std::alloc::Global;

fn globals(
    alloc: Global,
    arrays: &[ArrayInfo],
    functions: &[FunctionInfo],
) -> Result<Globals, NoMemory>
    ensures { IfOk result (λ names. names ≡ fold spec.with_array (scope_of functions.now) arrays.now) }
{
    let mut names = Globals::new(alloc).with_functions(alloc, functions)?;
    for array in arrays {
        names = names.with_array(alloc, &array.name, array.kind)?;
    }
    Ok(names)
}

/// The steps of each call and loop of the lists, whose names are those of the lists.
pub fn steps_of(alloc: Global, lists: &Lists) -> Result<Items<Items<Step>>, NoMemory>
    ensures { IfOk result (AreAllSteps (spec.globals_of lists.now) lists.now.texts) }
{
    let names = globals(alloc, lists.arrays.as_slice(), lists.functions.functions())?;
    compile_loops(alloc, names, lists.texts.as_slice())
}
