//! The top call: words and bytes in, the text of a run, a script's canonical spelling or one line of refusal out.
#![tactic(auto)]

mod accept;
mod answer;
mod laws;
mod lines;
mod refusal;
mod run;
mod script;
mod status;
#[cfg(test)]
mod tests;
mod top;
mod words;

pub use laws::{one_reason, takes_or_refuses};
pub use refusal::{Conflict, Refusal};
pub use status::Status;
pub use top::run_words;
pub use words::{Command, read_words};
