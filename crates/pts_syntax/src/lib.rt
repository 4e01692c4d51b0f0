//! The script language: reading scripts and printing them.
#![tactic(auto)]

mod laws;
mod reading;
mod signs;

pub use laws::{
    no_fault_of_a_script, one_fault, one_script, print_is_read_back, what_is_read_is_writable,
};
pub use pts_print::print;
pub use reading::{SyntaxFault, SyntaxKind, parse};
