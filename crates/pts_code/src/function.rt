//! Functions whose names are resolved.

use pts_tree::{Expr, Name, Param};
use pts_types::Kind;
use sqlite_items::Items;

/// A function. Each name in its body is a parameter or an earlier function.
#[derive(Debug, Drop)]
pub struct FunctionInfo {
    pub name: Name,
    pub params: Items<Param>,
    pub kind: Kind,
    pub body: Expr,
}
