//! The cells of a running program, and what its statements do with them.
#![tactic(auto)]

mod expressions;
mod functions;
mod results;
mod store;
mod unbuilt;

pub use expressions::{Local, eval_expr};
pub use functions::eval_fn;
pub use pts_store::{Overlay, Store, View, Writes, merge};
pub use results::{CallResult, RunState};
pub use store::start_store;
pub use unbuilt::later;
