//! What a program without conflict says of its calls.

ghost use Rattle.pts_clear.specs.MapShowing as maps;
ghost use Rattle.pts_clear.specs.Showing as laws;

/// A call that is no loop has no conflict in a program without conflict, so that all orders that its policy allows have one outcome.
pub fn calls_are_clear()
    ensures { laws.CallsAreClear }
{}

/// The lists of a program show each `for_each` and each `transform`: their points, and the policy under which they run.
pub fn map_calls_are_shown()
    ensures for_each { maps.ForEachIsShown }
    ensures transform { maps.TransformIsShown }
{}
