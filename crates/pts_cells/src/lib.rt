//! Cells that a call writes, as its evaluations see them: for each cell of the store that the call began with a value, or nothing.
//! Where two orders of evaluations write the same, this is the same list of lists, unlike the writes that a program holds.
//! Nothing runs here.
#![tactic(auto)]

mod laws;

pub use laws::cells_are_written_apart;
