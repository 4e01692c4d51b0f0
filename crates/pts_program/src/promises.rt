//! What the lists of every program promise: how they belong together, and what is left of texts without constants.

ghost use Rattle.std.specs.Prelude.{◌≡◌, ℕ, false, All, IfSome, Some, flat_map, length, slice_get};
ghost use Rattle.pts_tree.specs.declared.script.Script.{Script};
ghost use Rattle.pts_constants.specs.declared.texts.CallText.{CallText};
ghost use Rattle.pts_points.specs.declared.point.CallInfo.{CallInfo};
ghost use Rattle.pts_rules.specs.Names.{has_repeat};
ghost use Rattle.pts_rules.specs.Parts.{statements};
ghost use Rattle.pts_rules.specs.Scopes.{known};
ghost use Rattle.pts_syntax.specs.Syntax.{IsSpelled};
ghost use Rattle.pts_program.specs.declared.lists.Lists.{Lists};
ghost use Rattle.pts_program.specs.Bodies.{IsBlockBody};
ghost use Rattle.pts_program.specs.Exactness.{IsExact, sums_of};
ghost use Rattle.pts_program.specs.Faults.{IsSound, item_at, items_before};
ghost use Rattle.pts_program.specs.Holdings.{HoldsStatement};
ghost use Rattle.pts_program.specs.Lists.{IsProgram};
ghost use Rattle.pts_program.specs.Matching.{IsCallOf, IsNumbered};
ghost use Rattle.pts_program.specs.Namings.{HoldsIn, HoldsOf, IsNamed, IsRight, global_names};
ghost use Rattle.pts_program.specs.Plain.{IsPlain};

/// There are as many texts as calls, and as many forms in which they run; the text of a call has its policy and its positions.
pub fn each_call_has_its_text()
    ensures texts { (lists : Lists) → IsProgram lists → length lists.texts ≡ length lists.calls }
    ensures forms { (lists : Lists) → IsProgram lists → length lists.lowered_calls ≡ length lists.calls }
    ensures each { (lists : Lists) (n : ℕ) (text : CallText) (call : CallInfo) → IsProgram lists → slice_get lists.texts n ≡ Some text → slice_get lists.calls n ≡ Some call → IsCallOf text call }
{}

/// The call, the block or the array of each statement is in its list.
pub fn statements_have_their_numbers()
    ensures { (lists : Lists) → IsProgram lists → All (IsNumbered lists) lists.statements }
{}

/// In texts and blocks each sum is one number.
pub fn every_sum_is_one_number()
    ensures texts { (lists : Lists) → IsProgram lists → All (HoldsOf IsPlain) lists.texts }
    ensures blocks { (lists : Lists) → IsProgram lists → All (HoldsIn IsPlain) lists.blocks }
{}

/// No two arrays or functions have one name.
pub fn names_of_arrays_and_functions_differ()
    ensures { (lists : Lists) → IsProgram lists → has_repeat (global_names lists) ≡ false }
{}

/// Each name in texts and blocks is a local one or that of an array or a function before the item, and so none of a constant;
/// the local names of a loop differ from each other and from those.
pub fn every_name_is_known()
    ensures texts { (lists : Lists) → IsProgram lists → All (HoldsOf (IsNamed lists)) lists.texts }
    ensures blocks { (lists : Lists) → IsProgram lists → All (HoldsIn (IsNamed lists)) lists.blocks }
{}

/// Texts and blocks keep the rules of kinds where the arrays and functions of the program are known, and no constants: what they
/// name is of the sort that its place asks, initial values, identities and steps lie in their kinds, and expressions have theirs.
pub fn every_statement_keeps_the_rules_of_kinds()
    ensures texts { (lists : Lists) → IsProgram lists → All (HoldsOf (IsRight lists)) lists.texts }
    ensures blocks { (lists : Lists) → IsProgram lists → All (HoldsIn (IsRight lists)) lists.blocks }
{}

/// Ranges, and the cells that no loop index moves, lie in their arrays, and no range ends before its start.
pub fn every_range_lies_in_its_array()
    ensures texts { (lists : Lists) → IsProgram lists → All (HoldsOf (HoldsStatement lists.arrays)) lists.texts }
    ensures blocks { (lists : Lists) → IsProgram lists → All (HoldsIn (HoldsStatement lists.arrays)) lists.blocks }
{}

/// Of no sum in a statement of a script that breaks no rule is anything cut: the number that is left of it is its value.
pub fn every_sum_keeps_its_value()
    ensures { (script : Script) (n : ℕ) → IsSpelled script → IsSound script → IfSome (item_at script n) (λ x. All (IsExact (known (items_before script n))) (flat_map sums_of (statements x))) }
{}

/// In the body of each block every `run` and every `wait` stands directly, and all of them are counted.
pub fn every_run_stands_in_its_block()
    ensures { (lists : Lists) → IsProgram lists → All IsBlockBody lists.blocks }
{}
