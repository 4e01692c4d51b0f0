//! What the points of a position give to the views of reductions.

ghost use Rattle.std.specs.Prelude.{◌≡◌, Some, length};
ghost use Rattle.std.specs.Result.{result_ok};
ghost use Rattle.pts_code.specs.Functions.{outcome_of};
ghost use Rattle.pts_passes.specs.LiveOuts.{combining};
ghost use Rattle.pts_loops.specs.Gathering as spec;

use crate::run::Run;
use crate::turn::Turn;
use pts_code::operated;
use pts_lowering::{LoopClause, Operation};
use pts_steps::Step;
use pts_types::{Thrown, Value};

impl Run<'_> {
    // What a function gives; None where it throws.
    fn call_function(&self, function: u32, arguments: &[Value]) -> Option<Value>
        ensures { result ≡ result_ok (outcome_of self.now.functions.now function arguments.now) }
    {
        if function as usize >= self.functions.functions().len() {
            return Some(Value::U64(0));
        }
        self.functions.call(function as usize, arguments).ok()
    }

    // An operation on two values; None where it throws.
    fn combine(&self, operation: Operation, x: Value, y: Value) -> Option<Value>
        ensures { result ≡ combining self.now.functions.now operation x y }
    {
        match operation {
            Operation::Table(op) => operated(op, x, y).ok(),
            Operation::Function(function) => self.call_function(function, &[x, y]),
        }
    }

    // An accumulator to which a value is given.
    fn add(&self, clause: &LoopClause, accumulator: Option<Value>, value: Value) -> Option<Value>
        ensures { result ≡ spec.added self.now.functions.now clause.now accumulator value }
    {
        match clause {
            LoopClause::Reduction(x) => match accumulator {
                Some(so_far) => self.combine(x.operation, so_far, value),
                None => None,
            },
            LoopClause::Induction(_) => accumulator,
        }
    }

    // Gives a value to the view of the clause of this number.
    fn add_at(&self, accumulators: &mut Vec<Option<Value>>, number: usize, value: Value)
        ensures { accumulators.new.items ≡ spec.added_at self.now.functions.now self.now.head.now.clauses number value accumulators.old.items }
    {
        let Some(clause) = self.head.clauses.as_slice().get(number) else {
            return;
        };
        if number < accumulators.len() {
            accumulators[number] = self.add(clause, accumulators[number], value);
        }
    }

    fn add_note(
        &self,
        accumulators: &mut Vec<Option<Value>>,
        number: usize,
        note: Option<Result<Value, Thrown>>,
    )
        ensures { accumulators.new.items ≡ spec.added_note self.now.functions.now self.now.head.now.clauses number (Some note) accumulators.old.items }
    {
        if let Some(Ok(value)) = note {
            self.add_at(accumulators, number, value);
        }
    }

    // Gives what has been noted at a point, if its step does so.
    fn gather_step(
        &self,
        accumulators: &mut Vec<Option<Value>>,
        step: &Step,
        note: Option<Result<Value, Thrown>>,
    )
        ensures { accumulators.new.items ≡ spec.gathered_step self.now.functions.now self.now.head.now.clauses step.now (Some note) accumulators.old.items }
    {
        if let Step::Give(number, _) = step {
            self.add_note(accumulators, *number, note);
        }
    }

    /// Gives what the points of a position have noted.
    pub(crate) fn gather(&self, turn: &mut Turn<'_>)
        requires { length turn.old.notes.items ≡ length self.now.steps.now }
        ensures accumulators { turn.new.accumulators.items ≡ spec.gathered self.now.functions.now self.now.head.now.clauses turn.old.notes.items 0 self.now.steps.now turn.old.accumulators.items }
        ensures layer { turn.new.layer ≡ turn.old.layer }
        ensures first { turn.new.first ≡ turn.old.first }
        ensures begun { turn.new.begun.items ≡ turn.old.begun.items }
        ensures notes { turn.new.notes.items ≡ turn.old.notes.items }
    {
        for k in 0..self.steps.len() {
            self.gather_step(&mut turn.accumulators, &self.steps[k], turn.notes[k]);
        }
    }
}
