//! Why a script is refused.

use pts_conflict::Pair;
use pts_program::BuildFault;
use pts_syntax::SyntaxFault;
use pts_tree::Name;

/// Two evaluations that conflict, and the name of the array whose cell both touch.
#[derive(Debug, Drop)]
pub struct Conflict {
    pub array: Name,
    pub pair: Pair,
}

/// Why the bytes of a source are refused.
#[derive(Debug, Drop)]
pub enum Refusal {
    /// There are more than 1,048,576 of them.
    TooLong,
    /// They spell no script. Want of memory is no such fault.
    Syntax(SyntaxFault),
    /// The script breaks a rule. Want of memory is no such fault.
    Build(BuildFault),
    /// This item is the first that is not built. Items are counted from 1 on.
    Later(u32),
    /// Two unordered evaluations touch one cell, and one of them writes it; this pair is the least.
    Conflict(Conflict),
}
