//! Laws of task blocks. A type parameter stands for whatever the assignments and calls of blocks mean.

ghost use Rattle.pts_blocks.specs.Footprints.{Footprint};
ghost use Rattle.pts_blocks.specs.Laws as laws;
ghost use Rattle.pts_blocks.specs.Meanings.{Meaning};

/// What the assignments and calls of blocks mean, and the cells that they touch.
pub trait Blocks {
    ghost meaning: { Meaning };

    ghost footprint: { Footprint };
}

/// The exception list of a block is empty exactly where none of its own nodes threw.
pub fn lists_are_empty_where_none_threw()
    ensures { laws.EmptyWhereNoneThrew }
{}

/// Where a tree that fits a block has a terminated node inside it, a node of the block itself is terminated.
pub fn terminated_nodes_show_at_each_level<B: Blocks>()
    ensures { laws.TerminatedAtEachLevel B.meaning }
{}

/// A body is not discarded, no task is cancelled, and what is discarded or cancelled has a cause in the same tree.
pub fn ends_have_their_causes<B: Blocks>()
    ensures kinds { laws.EndsByKind B.meaning }
    ensures causes { laws.CausesShow B.meaning }
{}

/// A task spawns no tasks of its own, and is not cancelled.
pub fn tasks_spawn_none<B: Blocks>()
    ensures { laws.TasksSpawnNone B.meaning }
{}

/// What one worker may do alone, several may do, with no task discarded at any depth and nothing cancelled without a cause. Where each
/// call has one answer, it may do one thing alone.
pub fn one_worker_is_among_several<B: Blocks>()
    ensures permitted { laws.AloneIsPermitted B.meaning }
    ensures discards { laws.AloneDiscardsNone B.meaning }
    ensures caused { laws.AloneIsCaused B.meaning }
    ensures settled { laws.AloneIsSettled B.meaning }
{}

/// Runs of statements one behind the other are joined, and cut again.
pub fn runs_join_and_split<B: Blocks>()
    ensures join { laws.RunsJoin B.meaning }
    ensures split { laws.RunsSplit B.meaning }
{}

/// What is written lies in the cells that the statements write, and what was run can be run from each store that holds the same in
/// the cells that they read, with the same ends, notes and changes.
pub fn runs_are_framed<B: Blocks>()
    ensures runs { laws.RunsAreFramed B.meaning B.footprint }
    ensures statements { laws.StatementsAreFramed B.meaning B.footprint }
    ensures blocks { laws.BlocksAreFramed B.meaning B.footprint }
{}

/// Parts of a run of which neither writes what the other touches may stand in either order.
pub fn runs_apart_exchange<B: Blocks>()
    ensures { laws.RunsExchange B.meaning B.footprint }
{}

/// A task and what stands behind its `run` may both run on the store that there is at the `run`.
pub fn runs_fork<B: Blocks>()
    ensures { laws.RunsFork B.meaning B.footprint }
{}
