//! One call of a program, whatever its form: it is run on a view, and gives its result and its writes, or is terminated.
//! `answers` has what is given back, `calls` brings each form to the crate that runs it.
#![tactic(auto)]

mod answers;
mod calls;

pub use answers::CallAnswer;
pub use calls::{call_form, run_call};
