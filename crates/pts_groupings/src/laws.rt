//! Laws of sums, scans and reductions, whatever the policy, the chunk length and the grouping.

ghost use Rattle.pts_types.specs.Arithmetic.{IsReduction};
ghost use Rattle.pts_types.specs.Laws.{IsI64, IsSelection, IsU64};
ghost use Rattle.pts_types.specs.declared.value.Kind.TheVariants as kinds;
ghost use Rattle.pts_groupings.specs.Laws as laws;

/// One worker has one grouping, the one group of all chunks in order, which is one among any workers.
pub fn one_worker_has_one_grouping()
    ensures alone { laws.OneWorkerHasOneGrouping }
    ensures among_others { laws.OneGroupIsAGrouping }
{}

/// The sum of any grouping is a generalized sum of init and the items, and it throws where a transform throws.
pub fn sums_of_groupings_are_generalized()
    ensures { laws.SumsAreGeneralized }
{}

/// Each place of a scan is the sum that the standard names for it, and a scan throws only where such a sum may, and wherever
/// a transform does at an item that belongs to a place.
pub fn places_are_sums_of_their_items()
    ensures written { laws.WrittenPlacesAreSums }
    ensures thrown { laws.ThrowsAreSums }
    ensures transforms { laws.ItemsThrow }
{}

/// A loop's reduction combines the accumulators of its groups in their order, each of them a sum of what it began with and
/// what its group contributes: so the whole is a sum of the live value, an identity for each further group, and all contributions.
pub fn reductions_combine_their_accumulators()
    ensures combines { laws.ReductionsCombine }
    ensures accumulators { laws.AccumulatorsAreSums }
    ensures whole { laws.ReductionsAreSums }
{}

/// On `u64` each of the seven operations gives the left fold, whatever the brackets and the order; so it does whatever the policy,
/// the chunk length and the grouping, in sums, in scans and in reductions of loops.
pub fn unsigned_sums_are_left_folds()
    ensures outcome { laws.OneOutcome IsReduction IsU64 }
    ensures sums { laws.SumsAreLeftFolds IsReduction IsU64 }
    ensures places { laws.PlacesAreLeftFolds IsReduction IsU64 }
    ensures reductions { laws.ReductionsAreLeftFolds IsReduction IsU64 kinds.U64 }
{}

/// On `i64` so do `BitAnd`, `BitOr`, `BitXor`, `Min` and `Max`.
pub fn signed_selections_are_left_folds()
    ensures outcome { laws.OneOutcome IsSelection IsI64 }
    ensures sums { laws.SumsAreLeftFolds IsSelection IsI64 }
    ensures places { laws.PlacesAreLeftFolds IsSelection IsI64 }
    ensures reductions { laws.ReductionsAreLeftFolds IsSelection IsI64 kinds.I64 }
{}
