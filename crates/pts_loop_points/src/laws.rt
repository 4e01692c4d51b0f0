//! What the lists of every program show of its loops.

ghost use Rattle.std.specs.Prelude.{◌≡◌, ◌++◌, ℕ, List, Some, map, slice_get};
ghost use Rattle.pts_rules.specs.Parts.{Name};
ghost use Rattle.pts_code.specs.Codes.{Sight};
ghost use Rattle.pts_code.specs.Compiling.{Holds, scope_of_names};
ghost use Rattle.pts_code.specs.Functions.{environment_of};
ghost use Rattle.pts_code.specs.Values.{Array, bound_to};
ghost use Rattle.pts_code.specs.declared.compiling.Spot.{Spot};
ghost use Rattle.pts_points.specs.declared.point.CallInfo.{CallInfo};
ghost use Rattle.pts_lowering.specs.declared.forms.LoweredCall.TheVariants as lowered;
ghost use Rattle.pts_lowering.specs.declared.forms.LoweredLoop.{LoweredLoop};
ghost use Rattle.pts_program.specs.declared.lists.Lists.{Lists};
ghost use Rattle.pts_program.specs.Globals.{global_environment, globals_of};
ghost use Rattle.pts_program.specs.Lists.{IsProgram};
ghost use Rattle.pts_loop_points.specs.LoopPoints.{IsLoopCall};

/// A call that is a loop in numbers has the text of a loop: a loop of the script without its constants. Its points, for which the
/// program has steps, are those that the list of points shows: so many of the call's item from the call's first one on, in the
/// same order. The call has its policy; at each position the index is in the range of `i64`; and each cell that a clause names is one
/// of its array.
pub fn loops_stand_in_the_lists()
    ensures { (lists : Lists) (c : ℕ) (call : CallInfo) (head : LoweredLoop) → IsProgram lists → slice_get lists.calls c ≡ Some call → slice_get lists.lowered_calls c ≡ Some (lowered.Loop head) → IsLoopCall lists c call head }
{}

/// The names in a program's loops are those of what its arrays and functions stand for: of the arrays the kinds of their
/// elements, and of the functions what they give. Where code may call the functions of the program, each stands at its number;
/// and a name stands for the same as where the arrays are named in order.
pub fn names_in_loops_stand_for_arrays_and_functions()
    ensures names { (lists : Lists) → globals_of lists ≡ scope_of_names (global_environment lists) }
    ensures functions { (lists : Lists) (sight : Sight) (spots : List Spot) → Holds sight spots (environment_of lists.functions) → Holds sight spots (global_environment lists) }
    ensures same { (lists : Lists) (name : Name) → IsProgram lists → bound_to (global_environment lists) name ≡ bound_to (map (λ a. (a.name, Array a.kind)) lists.arrays ++ environment_of lists.functions) name }
{}
