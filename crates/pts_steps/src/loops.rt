//! What the points of the loops of a program compute.

ghost use Rattle.std.specs.Prelude.{◌≡◌, [], IfOk, OnOk};
ghost use Rattle.pts_steps.specs.Building as spec;
ghost use Rattle.pts_steps.specs.Steps.{AreSteps, AreStepsOf, loop_points};
ghost use Rattle.pts_steps.specs.Texts.{AreAllSteps};

use crate::builder::Builder;
use crate::globals::Globals;
use crate::step::Step;
use pts_constants::CallText;
use pts_tree::Loop;
use pts_types::NoMemory;
use sqlite_items::Items;
use std::alloc::Global;
use std::mem::replace;

impl Builder {
    // The steps of a loop, between others.
    fn loop_steps(&mut self, alloc: Global, x: &Loop) -> Result<Items<Step>, NoMemory>
        requires between { spec.IsAtGlobals self.old }
        requires none { self.old.steps ≡ [] }
        ensures steps { IfOk result (λ steps. AreSteps self.old.globals x.now (loop_points self.old.globals x.now) steps) }
        ensures same { OnOk result (self.new ≡ self.old) }
    {
        let mark = self.mark();
        self.enter_loop(alloc, x)?;
        self.live_outs(x.clauses.as_slice())?;
        self.body(alloc, x, x.body.as_slice())?;
        self.leave(mark);
        Ok(replace(&mut self.steps, Items::new(alloc)))
    }

    fn text_steps(&mut self, alloc: Global, text: &CallText) -> Result<Items<Step>, NoMemory>
        requires between { spec.IsAtGlobals self.old }
        requires none { self.old.steps ≡ [] }
        ensures steps { IfOk result (AreStepsOf self.old.globals text.now) }
        ensures same { OnOk result (self.new ≡ self.old) }
    {
        match text {
            CallText::Call(_) => Ok(Items::new(alloc)),
            CallText::Loop(x) => self.loop_steps(alloc, x),
        }
    }
}

fn all_steps(
    alloc: Global,
    builder: &mut Builder,
    texts: &[CallText],
) -> Result<Items<Items<Step>>, NoMemory>
    requires between { spec.IsAtGlobals builder.old }
    requires none { builder.old.steps ≡ [] }
    ensures steps { IfOk result (AreAllSteps builder.old.globals texts.now) }
    ensures same { OnOk result (builder.new ≡ builder.old) }
{
    let mut all = Items::new(alloc);
    for text in texts {
        let steps = builder.text_steps(alloc, text)?;
        all.push(steps)?;
    }
    Ok(all)
}

/// The steps of each of these calls and loops in order, where these are the names of the arrays and functions: for a loop one
/// for each of its points, and none for a call.
pub fn compile_loops(
    alloc: Global,
    globals: Globals,
    texts: &[CallText],
) -> Result<Items<Items<Step>>, NoMemory>
    ensures { IfOk result (AreAllSteps globals texts.now) }
{
    let mut builder = globals.into_builder(alloc);
    all_steps(alloc, &mut builder, texts)
}
