//! Copies of trees without their constants.
#![tactic(auto)]

mod blocks;
mod calls;
mod expressions;
mod infos;
mod loops;
mod sums;
mod texts;

pub use blocks::resolve_block;
pub use calls::resolve_call;
pub use expressions::resolve_expr;
pub use infos::{BlockInfo, add_blocks};
pub use loops::resolve_loop;
pub use sums::{copy_name, resolve_sum};
pub use texts::{CallText, add_texts};
