//! Laws of stores and writes, for whatever runs calls one after another or at once.

ghost use Rattle.pts_store.specs.Laws as laws;

/// Accepting writes one after the other gives what accepting the merged ones gives.
pub fn writes_in_turn_are_the_merged_ones()
    ensures { laws.AcceptedInTurn }
{}

/// Writes that share no cell may be merged in any order.
pub fn writes_apart_merge_in_any_order()
    ensures { laws.MergeInAnyOrder }
{}

/// Writes that share no cell may be accepted in any order.
pub fn writes_apart_are_accepted_in_any_order()
    ensures { laws.AcceptedInAnyOrder }
{}

/// Merging is associative.
pub fn merging_is_associative()
    ensures { laws.MergesAreAssociative }
{}

/// A store keeps the number of its arrays and their lengths, whatever is written.
pub fn writing_keeps_the_shape()
    ensures accepted { laws.AcceptingKeepsShape }
    ensures put { laws.PuttingKeepsShape }
{}

/// Where values of the right kinds are written, each array keeps its kind.
pub fn writing_keeps_the_kinds()
    ensures accepted { laws.AcceptingKeepsKinds }
    ensures put { laws.PuttingKeepsKinds }
    ensures set { laws.WritingKeepsKinds }
    ensures merged { laws.MergingKeepsKinds }
{}

/// Writes are those of a list of steps: of none at first, of one more after a write, and of both lists after a merge.
pub fn writes_are_those_of_their_steps()
    ensures none { laws.NoSteps }
    ensures set { laws.OneStepMore }
    ensures merged { laws.StepsOfBoth }
{}
