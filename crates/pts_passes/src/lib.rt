//! What loops mean: a loop at its positions is a call, whose evaluations are the points of its body at each position, with its index
//! and its inductions there. Nothing runs here. The definitions are in `specs/`: `Inductions` says what the names of a head stand for,
//! `Passes` what is evaluated and in which orders, `LiveOuts` what reductions and inductions leave, and `Ends` how a loop may end.
#![tactic(auto)]

mod laws;

pub use laws::{
    index_order_is_allowed, loops_in_order_are_free, names_are_known, offs_stand_together,
    orders_agree,
};
