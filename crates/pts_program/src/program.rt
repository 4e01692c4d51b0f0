//! Checked programs.

ghost use Rattle.std.specs.Prelude.{◌≡◌, ◌<◌, Some, length, slice_get};
ghost use Rattle.pts_constants.specs.declared.texts.CallText.{CallText as TextTree};
ghost use Rattle.pts_steps.specs.Steps.{AreStepsOf};
ghost use Rattle.pts_steps.specs.Texts.{AreAllSteps};
ghost use Rattle.pts_program.specs.Globals.{globals_of};
ghost use Rattle.pts_program.specs.Lists as spec;

use crate::info::{ArrayInfo, StatementInfo};
use crate::lists::Lists;
use pts_code::{Codes, FunctionInfo};
use pts_constants::{BlockInfo, CallText};
use pts_lowering::{LoweredBlock, LoweredCall};
use pts_points::{CallInfo, PointInfo};
use pts_steps::Step;
use sqlite_items::Items;
use std::marker::Model;

/// A script that breaks no rule, as lists: names are resolved, kinds agree, functions call earlier ones only, and each index
/// is in its array at every position. What the points of its loops compute is kept with the lists.
#[derive(Drop)]
pub struct Program {
    lists: Lists,
    steps: Items<Items<Step>>,
}

impl Model for Program {
    ghost use Rattle.std.specs.Coded.{codes};
    ghost use Rattle.pts_steps.specs.Texts.{AreAllSteps};
    ghost use Rattle.pts_program.specs.Globals.{globals_of};
    ghost use Rattle.pts_program.specs.Lists.{IsProgram};
    ghost use Rattle.pts_program.specs.declared.lists.Lists.{Lists};
    ghost use Rattle.pts_tree.specs.contracts.block.TaskStmt as tasks;
    ghost use Rattle.pts_tree.specs.contracts.expr.Expr as exprs;
    ghost use Rattle.pts_tree.specs.contracts.loops.BodyStmt as stmts;
    ghost use Rattle.pts_lowering.specs.contracts.tasks.LoweredTask as lowered;

    ghost Value = { Lists };

    ghost coded = { Prim.hlevel (codes, exprs.the_row.coded, stmts.the_row.coded, tasks.the_row.coded, lowered.the_row.coded) };

    ghost view = { λ p. p.lists };

    ghost invariant = { λ p. IsProgram p.lists × AreAllSteps (globals_of p.lists) p.lists.texts p.steps };
}

impl Program {
    pub(crate) fn new(lists: Lists, steps: Items<Items<Step>>) -> Program
        requires program { spec.IsProgram lists }
        requires steps { AreAllSteps (globals_of lists) lists.texts steps }
        ensures { result ≡ lists }
    {
        Program { lists, steps }
    }

    /// The lists are those of a script that breaks no rule, so that every law of programs holds of them.
    pub fn keeps_its_promises(&self)
        ensures { spec.IsProgram self.now }
    {
        let _lists = &self.lists;
    }

    /// The arrays, in the order of their declarations.
    pub fn arrays(&self) -> &[ArrayInfo]
        ensures { result.now ≡ self.now.arrays }
    {
        self.lists.arrays.as_slice()
    }

    /// The functions, in the order of their declarations.
    pub fn functions(&self) -> &[FunctionInfo]
        ensures { result.now ≡ self.now.functions }
    {
        self.lists.functions.functions()
    }

    /// The functions with what computes their values.
    pub fn codes(&self) -> &Codes
        ensures { result.now ≡ self.now.functions }
    {
        &self.lists.functions
    }

    /// The statements of the script, without those inside of blocks.
    pub fn statements(&self) -> &[StatementInfo]
        ensures { result.now ≡ self.now.statements }
    {
        self.lists.statements.as_slice()
    }

    /// The calls and loops in text order, those inside of blocks as well.
    pub fn calls(&self) -> &[CallInfo]
        ensures { result.now ≡ self.now.calls }
    {
        self.lists.calls.as_slice()
    }

    /// The points in the order of their items and, in an item, of their numbers.
    pub fn points(&self) -> &[PointInfo]
        ensures { result.now ≡ self.now.points }
    {
        self.lists.points.as_slice()
    }

    /// The blocks in text order, an outer one before those inside.
    pub fn blocks(&self) -> &[BlockInfo]
        ensures { result.now ≡ self.now.blocks }
    {
        self.lists.blocks.as_slice()
    }

    /// The calls and loops without constants, in text order. Their names are those of the lists or local ones.
    pub fn texts(&self) -> &[CallText]
        ensures { result.now ≡ self.now.texts }
    {
        self.lists.texts.as_slice()
    }

    /// The calls and loops in the form in which they run, in text order: the one of number c is that of call c.
    pub fn lowered_calls(&self) -> &[LoweredCall]
        ensures { result.now ≡ self.now.lowered_calls }
    {
        self.lists.lowered_calls.as_slice()
    }

    /// The blocks in the form in which they run, in text order, an outer one before those inside: the one of number b is that
    /// of block b.
    pub fn lowered_blocks(&self) -> &[LoweredBlock]
        ensures { result.now ≡ self.now.lowered_blocks }
    {
        self.lists.lowered_blocks.as_slice()
    }

    /// The text of a call or loop that exists. Its names are those of the lists or local ones, and no constant is left.
    pub fn call_text(&self, call: u32) -> &CallText
        requires { call < length self.now.texts }
        ensures { Some result.now ≡ slice_get self.now.texts call }
    {
        &self.lists.texts.as_slice()[call as usize]
    }

    /// What is done at each point of a loop, by the number of its call, with the code of what is computed there: one step for
    /// each point, in order. A call has none.
    pub fn steps(&self, call: u32) -> &[Step]
        requires { call < length self.now.texts }
        ensures { (text : TextTree) → slice_get self.now.texts call ≡ Some text → AreStepsOf (globals_of self.now) text result.now }
    {
        let place = call as usize;
        let steps = self.steps.as_slice();
        steps[place].as_slice()
    }
}
