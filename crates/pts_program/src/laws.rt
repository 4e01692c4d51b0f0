//! What the rules say of every script.

ghost use Rattle.std.specs.Prelude.{◌≡◌, ◌⊎◌, ℕ, List, [], Some, slice_get, All};
ghost use Rattle.pts_types.specs.Arithmetic.{GivesKind};
ghost use Rattle.pts_types.specs.declared.value.Value.{Value};
ghost use Rattle.pts_tree.specs.declared.script.Script.{Script};
ghost use Rattle.pts_code.specs.declared.function.FunctionInfo.{FunctionInfo};
ghost use Rattle.pts_code.specs.Functions.{kinds_of, outcome_of};
ghost use Rattle.pts_code.specs.Soundness.{AreOfKinds, HaveTypedBodies};
ghost use Rattle.pts_program.specs.declared.fault.BuildFault.{BuildFault};
ghost use Rattle.pts_program.specs.declared.lists.Lists.{Lists};
ghost use Rattle.pts_program.specs.Callings.{CallEarlier};
ghost use Rattle.pts_program.specs.Faults.{IsFaultAt, IsSound};
ghost use Rattle.pts_program.specs.Lists.{IsProgram};
ghost use Rattle.pts_program.specs.Ranges.{IsInRange, IsOfKind};

/// No script has two faults.
pub fn one_fault()
    ensures { (script : Script) (item other : ℕ) (fault another : BuildFault)
        → IsFaultAt script item fault → IsFaultAt script other another → (item ≡ other) × (fault ≡ another) }
{}

/// A script has a fault or none of its items breaks a rule, and not both.
pub fn a_fault_or_none()
    ensures one { (script : Script) → ((item : ℕ) × (fault : BuildFault) × IsFaultAt script item fault) ⊎ IsSound script }
    ensures other { (script : Script) (item : ℕ) (fault : BuildFault) → IsFaultAt script item fault → ¬ IsSound script }
{}

/// At each of its positions every point of a program is at a cell that its array has.
pub fn every_index_in_range()
    ensures { (lists : Lists) → IsProgram lists → All (IsInRange lists.arrays) lists.points }
{}

/// Every cell of a program has the kind of its array at the start.
pub fn every_cell_has_its_kind()
    ensures { (lists : Lists) → IsProgram lists → All IsOfKind lists.arrays }
{}

/// Each name in the body of a function is that of a parameter or, where it is called, of a function before it.
pub fn functions_call_earlier_ones()
    ensures { (lists : Lists) → IsProgram lists → CallEarlier [] lists.functions }
{}

/// The body of each function has the kind of its function where its parameters and the functions before it are known, and no
/// constants.
pub fn functions_have_typed_bodies()
    ensures { (lists : Lists) → IsProgram lists → HaveTypedBodies [] lists.functions }
{}

/// For arguments of the kinds of its parameters each function of a program gives a value of its kind, or throws.
pub fn every_function_gives_its_kind()
    ensures { (lists : Lists) (number : ℕ) (f : FunctionInfo) (arguments : List Value) → IsProgram lists → slice_get lists.functions number ≡ Some f → AreOfKinds (kinds_of f.params) arguments → GivesKind f.kind (outcome_of lists.functions number arguments) }
{}
