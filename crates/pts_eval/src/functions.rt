//! The values of functions.

ghost use Rattle.std.specs.Prelude.{◌≡◌, ◌<◌, Some, length, slice_get};
ghost use Rattle.pts_types.specs.Arithmetic.{GivesKind};
ghost use Rattle.pts_code.specs.declared.function.FunctionInfo.{FunctionInfo};
ghost use Rattle.pts_code.specs.Functions.{kinds_of, outcome_of};
ghost use Rattle.pts_code.specs.Soundness.{AreOfKinds};

use pts_program::Program;
use pts_types::{Thrown, Value};

/// What the function of this number gives for these arguments: its value, or what it throws first. It takes no memory.
pub fn eval_fn(program: &Program, function: u32, args: &[Value]) -> Result<Value, Thrown>
    requires { function < length program.now.functions }
    ensures value { result ≡ outcome_of program.now.functions function args.now }
    ensures kind { (f : FunctionInfo) → slice_get program.now.functions function ≡ Some f → AreOfKinds (kinds_of f.params) args.now → GivesKind f.kind result }
{
    program.keeps_its_promises();
    program.codes().call(function as usize, args)
}
