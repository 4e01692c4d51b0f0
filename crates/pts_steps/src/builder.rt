//! What is made of a loop so far, and the names at the place that comes next.

ghost use Rattle.std.specs.Prelude.{true, ◌^◌, ◌<◌, ◌+◌, ◌≡◌, ◌-◌, [], ◌∷◌, ◌++◌, IfOk, OnOk, length, take};
ghost use Rattle.pts_rules.specs.declared.meaning.Meaning.TheVariants.{Value};
ghost use Rattle.pts_rules.specs.Counts.{reads};
ghost use Rattle.pts_code.specs.declared.compiling.Spot.TheVariants as places;
ghost use Rattle.pts_code.specs.Compiling.{IsCode};
ghost use Rattle.pts_code.specs.Values.{numbers};
ghost use Rattle.pts_steps.specs.Building as spec;

use crate::step::Step;
use pts_code::{Code, Names, Spot, compile, numbers_in};
use pts_rules::{Meaning, Scope};
use pts_tree::{Expr, Name};
use pts_types::{Kind, NoMemory};
use sqlite_items::Items;
use std::alloc::{AllocError, Global};

/// The steps of a loop so far. Beside the names of the arrays and functions it holds those that may be used at the next place,
/// once as the rules of kinds see them, views among them, and once as code sees them, with the spots of the local values.
#[derive(Drop)]
pub struct Builder {
    pub globals: Scope,
    pub kinds: Scope,
    pub names: Scope,
    pub spots: Items<Spot>,
    pub steps: Items<Step>,
}

/// How many names and spots there are at a place.
#[derive(Clone, Copy, Debug)]
pub struct Mark {
    pub kinds: usize,
    pub names: usize,
    pub spots: usize,
}

impl Builder {
    pub fn push(&mut self, step: Step) -> Result<(), AllocError>
        ensures { OnOk result (self.new ≡ spec.with_step self.old step) }
    {
        self.steps.push(step)
    }

    /// A `let` more, whose value the point of this number notes.
    pub fn enter(
        &mut self,
        alloc: Global,
        name: &Name,
        kind: Kind,
        number: usize,
    ) -> Result<(), NoMemory>
        ensures { OnOk result (self.new ≡ record self.old {
          kinds = (name.now, Value kind) ∷ self.old.kinds;
          names = (name.now, Value kind) ∷ self.old.names;
          spots = self.old.spots ++ places.Note number ∷ [];
        }) }
    {
        self.kinds.enter(alloc, name, Meaning::Value(kind))?;
        self.names.enter(alloc, name, Meaning::Value(kind))?;
        self.spots.push(Spot::Note(number))?;
        Ok(())
    }

    pub fn mark(&self) -> Mark
        ensures { result ≡ spec.mark_of self.now }
    {
        Mark {
            kinds: self.kinds.len(),
            names: self.names.len(),
            spots: self.spots.len(),
        }
    }

    /// Without the names that were entered behind a mark.
    pub fn leave(&mut self, mark: Mark)
        ensures { self.new ≡ spec.left mark self.old }
    {
        self.kinds.leave(mark.kinds);
        self.names.leave(mark.names);
        self.leave_spots(mark.spots);
    }

    fn leave_spot(&mut self)
        ensures { self.new ≡ record self.old { spots = take (length self.old.spots - 1) self.old.spots } }
    {
        self.spots.pop();
    }

    fn leave_spots(&mut self, count: usize)
        ensures { self.new ≡ record self.old { spots = take count self.old.spots } }
    {
        let extra = self.spots.len().saturating_sub(count);
        for _turn in 0..extra {
            self.leave_spot();
        }
    }

    // So many Reads.
    fn push_reads(&mut self, count: usize) -> Result<(), AllocError>
        ensures { OnOk result (self.new ≡ spec.with_reads self.old count) }
    {
        for _read in 0..count {
            self.push(Step::Read)?;
        }
        Ok(())
    }

    /// The Reads of an expression, and the number of the point behind them. No memory holds an expression with more elements
    /// than there are numbers.
    pub fn reads(&mut self, expr: &Expr) -> Result<usize, AllocError>
        ensures reads { OnOk result (self.new ≡ spec.with_reads self.old (reads expr.now)) }
        ensures number { IfOk result (λ n. n ≡ length self.new.steps) }
    {
        let count = numbers_in(expr, true);
        if count == usize::MAX {
            return Err(AllocError);
        }
        self.push_reads(count)?;
        Ok(self.steps.len())
    }

    // The code of an expression among the names at this place, where the first of its Reads has this number.
    fn code(&self, alloc: Global, kind: Kind, first: usize, expr: &Expr) -> Result<Code, AllocError>
        requires { first + numbers true expr.now < 2 ^ 64 }
        ensures { IfOk result (λ code. IsCode self.now.names self.now.spots kind first expr.now code) }
    {
        let names = Names {
            scope: &self.names,
            spots: self.spots.as_slice(),
        };
        compile(alloc, &names, kind, first, expr)
    }

    /// The Reads of an expression, and the code of its value.
    pub fn compute(&mut self, alloc: Global, kind: Kind, expr: &Expr) -> Result<Code, AllocError>
        ensures reads { OnOk result (self.new ≡ spec.with_reads self.old (reads expr.now)) }
        ensures code { IfOk result (λ code. IsCode self.old.names self.old.spots kind (length self.old.steps) expr.now code) }
    {
        let first = self.steps.len();
        self.reads(expr)?;
        self.code(alloc, kind, first, expr)
    }
}
