//! What holds of the points of loops and of their steps.

ghost use Rattle.std.specs.Prelude.{All, ◌≡◌, ℕ, List, Some, length, map, slice_get};
ghost use Rattle.pts_tree.specs.declared.loops.Loop as loops;
ghost use Rattle.pts_rules.specs.Known.{Scope};
ghost use Rattle.pts_points.specs.Pieces.{Point};
ghost use Rattle.pts_rules.specs.Parts.{Loop};
ghost use Rattle.pts_constants.specs.Resolved.{resolved_loop};
ghost use Rattle.pts_constants.specs.declared.texts.CallText.{CallText};
ghost use Rattle.pts_points.specs.Points.{context_of, form_of, info, loop_piece};
ghost use Rattle.pts_points.specs.Standings.{IsNoted, StandsBehind};
ghost use Rattle.pts_steps.specs.declared.step.Step.{Step};
ghost use Rattle.pts_steps.specs.Shown.{IsLoopOf};
ghost use Rattle.pts_steps.specs.Steps.{AreSteps, AreStepsOf, Fits, form_shown, loop_points};
ghost use Rattle.pts_steps.specs.Texts.{AreAllSteps};

/// As many lists of steps as texts, and each has those of the text of its number.
pub fn each_text_has_its_steps()
    ensures count { (names : Scope) (texts : List CallText) (all : List (List Step)) → AreAllSteps names texts all → length all ≡ length texts }
    ensures each { (names : Scope) (texts : List CallText) (all : List (List Step)) → AreAllSteps names texts all
        → (k : ℕ) (text : CallText) (steps : List Step) → slice_get texts k ≡ Some text → slice_get all k ≡ Some steps → AreStepsOf names text steps }
{}

/// There are as many steps as points, and each does what is done at its point.
pub fn steps_fit_their_points()
    ensures count { (names : Scope) (x : loops.Loop) (points : List Point) (steps : List Step) → AreSteps names x points steps → length steps ≡ length points }
    ensures each { (names : Scope) (x : loops.Loop) (points : List Point) (steps : List Step) → AreSteps names x points steps
        → (k : ℕ) (point : Point) (step : Step) → slice_get points k ≡ Some point → slice_get steps k ≡ Some step → Fits names x point step }
    ensures forms { (names : Scope) (x : loops.Loop) (point : Point) (step : Step) → Fits names x point step → form_shown step ≡ form_of point.deed }
{}

/// The points of a loop are numbered from 0 in it. The tests that a point stands under and the `let`s that it may use stand
/// before it, each `let` at the point that notes it, and the Reads of what it computes end directly before it.
pub fn points_of_loops_stand_behind_what_they_need()
    ensures numbers { (names : Scope) (x : loops.Loop) (k : ℕ) (point : Point) → slice_get (loop_points names x) k ≡ Some point → point.number ≡ k }
    ensures all { (names : Scope) (x : loops.Loop) (k : ℕ) (point : Point) → slice_get (loop_points names x) k ≡ Some point → StandsBehind point }
    ensures noted { (names : Scope) (x : loops.Loop) (k : ℕ) (point : Point) → slice_get (loop_points names x) k ≡ Some point → All (IsNoted (loop_points names x)) point.context.lets }
{}

/// A loop without constants, where these are the names of the arrays and functions, shows the same points as the loop in its own
/// scope: so they are those that lists show.
pub fn loops_show_the_same_without_constants()
    ensures { (scope names : Scope) (x : loops.Loop) (item call n m : ℕ) → IsLoopOf scope names x
        → map (info item) ((loop_piece names (resolved_loop scope x)).points (context_of names call (Loop (resolved_loop scope x))) n m)
        ≡ map (info item) ((loop_piece scope x).points (context_of scope call (Loop x)) n m) }
{}
