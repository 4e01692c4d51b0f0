//! The syntax tree of the script language and the signs that spell it.
#![tactic(auto)]

mod block;
mod call;
mod expr;
mod grammar;
mod loops;
mod mark;
mod name;
mod script;
mod sign;
mod sum;

pub use block::{Block, TaskStmt};
pub use call::{Call, CallForm, Op};
pub use expr::{ChainPart, Expr, Place};
pub use grammar::same_grammar;
pub use loops::{BodyStmt, Clause, InductClause, Initial, Loop, ReduceClause};
pub use mark::{Mark, one_mark};
pub use name::Name;
pub use script::{ArrayDecl, ConstDecl, FunctionDecl, Item, Param, Script, Start};
pub use sign::{Sign, SignKind};
pub use sum::{Atom, Cell, Range, Sum, SumPart, Val};
