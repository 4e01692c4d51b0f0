//! Task blocks.

use crate::call::Call;
use crate::expr::Expr;
use crate::loops::Loop;
use crate::sum::Cell;
use sqlite_items::Items;

/// A task block.
#[cycle(block)]
#[derive(Debug, Drop)]
pub struct Block {
    pub body: Items<TaskStmt>,
}

/// A statement of a task block. Directly inside `Run` there is no `Run` and no `Wait`.
#[cycle(block)]
#[derive(Debug, Drop)]
pub enum TaskStmt {
    Run(Items<TaskStmt>),
    Wait,
    Throw(u64),
    Assign(Cell, Expr),
    Call(Call),
    Loop(Loop),
    Block(Block),
}
