//! The names of a loop's head, and the steps of its clauses.

ghost use Rattle.std.specs.Prelude.{◌≡◌, [], ◌∷◌, ◌++◌, fold, map, OnOk};
ghost use Rattle.pts_tree.specs.declared.loops.Loop as loops;
ghost use Rattle.pts_rules.specs.Mistyped.{clause_entries};
ghost use Rattle.pts_points.specs.Pieces.{sequence};
ghost use Rattle.pts_points.specs.Points.{clause_piece};
ghost use Rattle.pts_steps.specs.Building as spec;

use crate::builder::Builder;
use crate::step::Step;
use pts_code::Spot;
use pts_kinds::kind_of_array;
use pts_rules::Meaning;
use pts_tree::{Clause, Initial, Loop, Name};
use pts_types::{Kind, NoMemory};
use std::alloc::{AllocError, Global};

impl Builder {
    // What a clause declares, as the rules of kinds see it; a view of what is no array stands for nothing.
    fn enter_clause_kind(&mut self, alloc: Global, clause: &Clause) -> Result<(), NoMemory>
        ensures { OnOk result (self.new ≡ record self.old { kinds = clause_entries self.old.globals clause.now ++ self.old.kinds }) }
    {
        match clause {
            Clause::Reduce(clause) => match kind_of_array(&self.globals, &clause.cell.array) {
                Some(kind) => self.kinds.enter(alloc, &clause.view, Meaning::View(kind)),
                None => Ok(()),
            },
            Clause::Induct(clause) => self
                .kinds
                .enter(alloc, &clause.name, Meaning::Value(clause.kind)),
        }
    }

    // A name of the head, which code finds in the frame, behind those of the head before it.
    fn enter_head(&mut self, alloc: Global, name: &Name, kind: Kind) -> Result<(), NoMemory>
        ensures { OnOk result (self.new ≡ spec.heads_entered self.old ((name.now, kind) ∷ [])) }
    {
        self.names.enter(alloc, name, Meaning::Value(kind))?;
        let place = self.spots.len();
        self.spots.push(Spot::Local(place))?;
        Ok(())
    }

    fn enter_clause(&mut self, alloc: Global, clause: &Clause) -> Result<(), NoMemory>
        ensures { OnOk result (self.new ≡ spec.with_clause self.old clause.now) }
    {
        self.enter_clause_kind(alloc, clause)?;
        match clause {
            Clause::Reduce(_) => Ok(()),
            Clause::Induct(clause) => self.enter_head(alloc, &clause.name, clause.kind),
        }
    }

    fn enter_clauses(&mut self, alloc: Global, clauses: &[Clause]) -> Result<(), NoMemory>
        ensures { OnOk result (self.new ≡ fold spec.with_clause self.old clauses.now) }
    {
        for clause in clauses {
            self.enter_clause(alloc, clause)?;
        }
        Ok(())
    }

    /// The names of a loop's head.
    pub fn enter_loop(&mut self, alloc: Global, x: &Loop) -> Result<(), NoMemory>
        requires { spec.IsAtGlobals self.old }
        ensures stands { OnOk result (spec.Stands x.now self.new []) }
        ensures same { OnOk result ((self.new.globals ≡ self.old.globals) × (self.new.steps ≡ self.old.steps)) }
        ensures above { OnOk result (spec.IsAbove self.old self.new) }
    {
        self.enter_head(alloc, &x.index, Kind::I64)?;
        self.enter_clauses(alloc, x.clauses.as_slice())?;
        self.kinds.enter(alloc, &x.index, Meaning::Value(Kind::I64))
    }

    fn live_out(&mut self, clause: &Clause) -> Result<(), AllocError>
        ensures { OnOk result ((x : loops.Loop) → spec.Goes x self.old self.new (clause_piece self.old.globals clause.now)) }
    {
        match clause {
            Clause::Reduce(_) => self.push(Step::LiveOut),
            Clause::Induct(clause) => match &clause.initial {
                Initial::Cell(_) => self.push(Step::LiveOut),
                Initial::Val(_) => Ok(()),
            },
        }
    }

    /// The steps of the clauses that name a cell.
    pub fn live_outs(&mut self, clauses: &[Clause]) -> Result<(), AllocError>
        ensures { OnOk result ((x : loops.Loop) → spec.Goes x self.old self.new (sequence (map (clause_piece self.old.globals) clauses.now))) }
    {
        for clause in clauses {
            self.live_out(clause)?;
        }
        Ok(())
    }
}
