//! What holds of the conflicts of every program.

ghost use Rattle.std.specs.Prelude.{◌≡◌};
ghost use Rattle.pts_program.specs.declared.lists.Lists.{Lists};
ghost use Rattle.pts_program.specs.Lists.{IsProgram};
ghost use Rattle.pts_conflict.specs.declared.pair.Pair.{Pair};
ghost use Rattle.pts_conflict.specs.Conflicts.{IsLeastConflict, IsClear};

/// A program has one least conflict at most, and none if it has no conflict.
pub fn one_least_conflict()
    ensures one { (lists : Lists) (x y : Pair) → IsProgram lists → IsLeastConflict lists x → IsLeastConflict lists y → x ≡ y }
    ensures none { (lists : Lists) (x : Pair) → IsClear lists → ¬ IsLeastConflict lists x }
{}
