//! What a sum, a scan or the reduction of a loop may answer where its elements are shared out in groups, by the standard's own
//! generalized sums, and laws of these. Nothing runs here: the crates that run calls cite the definitions.
//! The definitions are in `specs/`:
//! `Brackets` has brackets round a list, and the two sums that the standard defines by them;
//! `Chunks` cuts positions into chunks and says what a grouping of chunks is;
//! `Sums` has the sum over a grouping, `Scans` the places of a scan, `Reductions` the accumulators of a loop;
//! `Laws` has what the functions of `laws` promise.
#![tactic(auto)]

mod laws;

pub use laws::{
    one_worker_has_one_grouping, places_are_sums_of_their_items,
    reductions_combine_their_accumulators, signed_selections_are_left_folds,
    sums_of_groupings_are_generalized, unsigned_sums_are_left_folds,
};
