//! What holds of the points of every item.

ghost use Rattle.std.specs.Prelude.{All, ◌≡◌, false, ℕ, ◌+◌, ◌<◌, ◌≤◌, ◌↔◌, Some, slice_get, length};
ghost use Rattle.std.specs.List.{list_any};
ghost use Rattle.pts_tree.specs.declared.script.Item.{Item};
ghost use Rattle.pts_rules.specs.Known.{Scope};
ghost use Rattle.pts_rules.specs.Indices.{has_not_affine};
ghost use Rattle.pts_rules.specs.Limits as limits;
ghost use Rattle.pts_rules.specs.Parts.{statements};
ghost use Rattle.pts_points.specs.declared.point.PointForm.TheVariants as forms;
ghost use Rattle.pts_points.specs.declared.point.CallInfo.{CallInfo};
ghost use Rattle.pts_points.specs.declared.point.PointInfo.{PointInfo};
ghost use Rattle.pts_points.specs.Pieces.{Point};
ghost use Rattle.pts_points.specs.Points.{calls_of, item_points, points_of};
ghost use Rattle.pts_points.specs.Standings.{Ascends, IsCell, HasPoint, IsNoted, StandsBehind, AreTogether};

/// The number of a point is its place in the list of its item.
pub fn numbers_are_places()
    ensures { (scope : Scope) (item earlier : ℕ) (x : Item) (k : ℕ) (y : PointInfo) → slice_get (points_of scope item earlier x) k ≡ Some y → y.number ≡ k }
{}

/// The tests that a point stands under ascend and stand before it. Each `let` that it may use was noted before it, at the
/// point that it names, and the Reads of what it computes end directly before it.
pub fn points_stand_behind_what_they_need()
    ensures all { (scope : Scope) (earlier : ℕ) (x : Item) (k : ℕ) (p : Point) → slice_get (item_points scope earlier x) k ≡ Some p → StandsBehind p }
    ensures noted { (scope : Scope) (earlier : ℕ) (x : Item) (k : ℕ) (p : Point) → slice_get (item_points scope earlier x) k ≡ Some p → All (IsNoted (item_points scope earlier x)) p.context.lets }
    ensures shown { (scope : Scope) (item earlier : ℕ) (x : Item) (k : ℕ) (y : PointInfo) → slice_get (points_of scope item earlier x) k ≡ Some y → Ascends 0 y.branches y.number }
{}

/// What stands between two points of one `off` has it too.
pub fn offs_stand_together()
    ensures all { (scope : Scope) (earlier : ℕ) (x : Item) → AreTogether (item_points scope earlier x) }
    ensures shown { (scope : Scope) (item earlier : ℕ) (x : Item) (i j k : ℕ) (a b c : PointInfo) (off : ℕ) → i < j → j < k
        → slice_get (points_of scope item earlier x) i ≡ Some a → slice_get (points_of scope item earlier x) j ≡ Some b → slice_get (points_of scope item earlier x) k ≡ Some c
        → a.off ≡ Some off → c.off ≡ Some off → b.off ≡ Some off }
{}

/// The cell of a clause, and that of a call's answer, is one cell and the same at every position.
pub fn clauses_and_answers_have_one_cell()
    ensures clauses { (scope : Scope) (item earlier : ℕ) (x : Item) (k : ℕ) (y : PointInfo) → slice_get (points_of scope item earlier x) k ≡ Some y → y.form ≡ forms.LiveOut → IsCell y.line }
    ensures answers { (scope : Scope) (item earlier : ℕ) (x : Item) (k : ℕ) (y : PointInfo) → slice_get (points_of scope item earlier x) k ≡ Some y → y.form ≡ forms.Into → IsCell y.line }
{}

/// The points of a call are those of its item that name it: `points` many from its first one on.
pub fn calls_have_the_points_that_name_them()
    ensures named { (scope : Scope) (item earlier : ℕ) (x : Item) (c : ℕ) (y : CallInfo) → slice_get (calls_of scope item earlier x) c ≡ Some y
        → (k : ℕ) (z : PointInfo) → slice_get (points_of scope item earlier x) k ≡ Some z → (z.call ≡ Some (earlier + c)) ↔ HasPoint y k }
    ensures within { (scope : Scope) (item earlier : ℕ) (x : Item) (c : ℕ) (y : CallInfo) → slice_get (calls_of scope item earlier x) c ≡ Some y
        → y.first_point + y.points ≤ length (points_of scope item earlier x) }
{}

/// An item whose indices are lines has as many points as the rules count.
pub fn lines_have_the_points_that_are_counted()
    ensures { (scope : Scope) (earlier : ℕ) (x : Item) → list_any (has_not_affine scope) (statements x) ≡ false → length (item_points scope earlier x) ≡ limits.points x }
{}
