//! What a program without conflict says of its loops.

ghost use Rattle.pts_loop_clear.specs.Showing as laws;

/// A loop has no conflict in a program without conflict, so that all orders that its policy allows have one outcome.
pub fn loops_are_free()
    ensures { laws.LoopsAreFree }
{}
