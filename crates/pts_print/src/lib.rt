//! The canonical printing of scripts.
#![tactic(auto)]

mod printing;

pub use printing::print;
