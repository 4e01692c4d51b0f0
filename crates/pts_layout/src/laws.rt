//! What holds of the points of every program.

ghost use Rattle.std.specs.Prelude.{◌≡◌, ℕ, ◌<◌, ◌+◌, ◌≤◌, ◌^◌, ◌↔◌, All, Some, slice_get};
ghost use Rattle.pts_points.specs.declared.point.PointForm.TheVariants as forms;
ghost use Rattle.pts_points.specs.declared.point.CallInfo.{CallInfo};
ghost use Rattle.pts_points.specs.declared.point.PointInfo.{PointInfo};
ghost use Rattle.pts_points.specs.Standings.{Ascends, HasPoint, IsCell};
ghost use Rattle.pts_lowering.specs.declared.tasks.LoweredBlock.{LoweredBlock};
ghost use Rattle.pts_program.specs.declared.lists.Lists.{Lists};
ghost use Rattle.pts_program.specs.Lists.{IsProgram};
ghost use Rattle.pts_layout.specs.Layout.{IsInOrder, IsPointOfCall, IsWithin, StandsAt, points_before};

/// The points of the items before an item are the first ones of the list, and each point of the item stands so far behind
/// them as its number says.
pub fn points_of_items_stand_together()
    ensures lower { (lists : Lists) (item j : ℕ) (x : PointInfo) → IsProgram lists → slice_get lists.points j ≡ Some x → (x.item < item) ↔ (j < points_before lists.points item) }
    ensures places { (lists : Lists) (j : ℕ) (x : PointInfo) → IsProgram lists → slice_get lists.points j ≡ Some x → j ≡ points_before lists.points x.item + x.number }
{}

/// The points that name a call are those that the call says: so many of its item from its first one on, and all of them.
pub fn points_of_calls_stand_together()
    ensures named { (lists : Lists) (j c : ℕ) (x : PointInfo) → IsProgram lists → slice_get lists.points j ≡ Some x → x.call ≡ Some c → IsPointOfCall lists x c }
    ensures all { (lists : Lists) (c k : ℕ) (call : CallInfo) → IsProgram lists → slice_get lists.calls c ≡ Some call → HasPoint call k → StandsAt lists.points call.item k (λ x. x.call ≡ Some c) }
{}

/// The statements of each block have its points, one behind the other, and its item has all of them.
pub fn points_of_blocks_stand_in_order()
    ensures order { (lists : Lists) → IsProgram lists → All (IsInOrder lists) lists.lowered_blocks }
    ensures all { (lists : Lists) (n k : ℕ) (block : LoweredBlock) → IsProgram lists → slice_get lists.lowered_blocks n ≡ Some block → IsWithin block k → StandsAt lists.points block.item k (λ x. x.item ≡ block.item) }
{}

/// No call has more than 1,048,576 positions.
pub fn calls_have_few_positions()
    ensures { (lists : Lists) → IsProgram lists → All (λ call. call.positions ≤ 2 ^ 20) lists.calls }
{}

/// The cell of a clause, and that of a call's answer, is one cell and the same at every position.
pub fn clauses_and_answers_are_one_cell()
    ensures clauses { (lists : Lists) (j : ℕ) (x : PointInfo) → IsProgram lists → slice_get lists.points j ≡ Some x → x.form ≡ forms.LiveOut → IsCell x.line }
    ensures answers { (lists : Lists) (j : ℕ) (x : PointInfo) → IsProgram lists → slice_get lists.points j ≡ Some x → x.form ≡ forms.Into → IsCell x.line }
{}

/// The tests that a point stands under ascend and stand before it.
pub fn tests_stand_before_their_points()
    ensures { (lists : Lists) (j : ℕ) (x : PointInfo) → IsProgram lists → slice_get lists.points j ≡ Some x → Ascends 0 x.branches x.number }
{}
