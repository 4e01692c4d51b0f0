//! The least conflict of a program, and programs that have none.

ghost use Rattle.std.specs.Prelude.{◌≡◌, ◌≢◌, Err, IfOk};
ghost use Rattle.pts_conflict.specs.declared.pair.Pair.{Pair as PairValue};
ghost use Rattle.pts_conflict.specs.Conflicts.{IsClear, IsLeastConflict};
ghost use Rattle.pts_conflict.specs.Search.{FindsFirst, IsConflict, rank_of};

use crate::blocks::least_in_blocks;
use crate::calls::least_in_calls;
use crate::found::{Found, lower};
use crate::pair::Pair;
use pts_program::Program;
use std::alloc::Global;
use std::marker::Model;

/// Why a program is not run.
#[derive(Clone, Copy, Debug, PartialEq, Eq)]
pub enum ClearFault {
    /// The least pair of evaluations that conflict.
    Conflict(Pair),
    NoMemory,
}

/// A program without conflicts.
#[derive(Drop)]
pub struct Cleared {
    program: Program,
}

impl Model for Cleared {
    ghost use Rattle.std.specs.Coded.{codes};
    ghost use Rattle.pts_conflict.specs.Conflicts.{IsClear};
    ghost use Rattle.pts_program.specs.declared.lists.Lists.{Lists};
    ghost use Rattle.pts_tree.specs.contracts.block.TaskStmt as tasks;
    ghost use Rattle.pts_tree.specs.contracts.expr.Expr as exprs;
    ghost use Rattle.pts_tree.specs.contracts.loops.BodyStmt as stmts;
    ghost use Rattle.pts_lowering.specs.contracts.tasks.LoweredTask as lowered;

    ghost Value = { Lists };

    ghost coded = { Prim.hlevel (codes, exprs.the_row.coded, stmts.the_row.coded, tasks.the_row.coded, lowered.the_row.coded) };

    ghost view = { λ c. c.program };

    ghost invariant = { λ c. IsClear c.program };
}

impl Cleared {
    fn new(program: Program) -> Cleared
        requires { IsClear program }
        ensures { result ≡ program }
    {
        Cleared { program }
    }

    /// The program.
    pub fn program(&self) -> &Program
        ensures same { result.now ≡ self.now }
        ensures clear { IsClear result.now }
    {
        &self.program
    }
}

fn least_conflict(program: &Program) -> Option<Found>
    ensures { FindsFirst (IsConflict program.now) rank_of result }
{
    program.keeps_its_promises();
    lower(least_in_calls(program), least_in_blocks(program))
}

/// The program, if it has no conflict, and else the least conflict: that of the least item, in which the pairs of one call come
/// first, by call, positions and points, and then those between parts of a block, by points and positions. It takes no memory.
#[tactic(auto, using(crate::proofs::LeastConflicts::clear_none, crate::proofs::LeastConflicts::least_some))]
pub fn clear(_alloc: Global, program: Program) -> Result<Cleared, ClearFault>
    ensures cleared { IfOk result (λ cleared. (cleared ≡ program) × IsClear program) }
    ensures conflict { (pair : PairValue) → result ≡ Err (ClearFault.Conflict pair) → IsLeastConflict program pair }
    ensures memory { result ≢ Err ClearFault.NoMemory }
{
    match least_conflict(&program) {
        Some(found) => Err(ClearFault::Conflict(found.pair)),
        None => Ok(Cleared::new(program)),
    }
}
