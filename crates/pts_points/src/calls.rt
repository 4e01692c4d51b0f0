//! The points of calls, and of the clauses and bodies of loops.

ghost use Rattle.std.specs.Prelude.{◌≡◌, map, OnOk};
ghost use Rattle.pts_points.specs.Building as spec;
ghost use Rattle.pts_points.specs.Lines.{space_of};
ghost use Rattle.pts_points.specs.Pieces.{behind, sequence};
ghost use Rattle.pts_points.specs.Points as points;

use crate::builder::Builder;
use crate::lines::{kept_array, line_of_cell, line_of_range};
use crate::point::PointForm;
use pts_rules::Scope;
use pts_tree::{Call, CallForm, Cell, Clause, Initial, Loop, Range};
use std::alloc::{AllocError, Global};

impl Builder {
    fn push_range(
        &mut self,
        alloc: Global,
        scope: &Scope,
        form: PointForm,
        range: &Range,
    ) -> Result<(), AllocError>
        ensures { OnOk result (self.new ≡ spec.pushed_range scope.now self.old form range.now) }
    {
        let array = kept_array(scope, &range.array);
        self.push(alloc, form, array, line_of_range(scope, range))
    }

    /// A point at a single cell.
    pub fn push_cell(
        &mut self,
        alloc: Global,
        scope: &Scope,
        form: PointForm,
        cell: &Cell,
    ) -> Result<(), AllocError>
        ensures { OnOk result (self.new ≡ spec.pushed_cell scope.now self.old form cell.now) }
    {
        let array = kept_array(scope, &cell.array);
        self.push(alloc, form, array, line_of_cell(scope, cell))
    }

    fn source(&mut self, alloc: Global, scope: &Scope, range: &Range) -> Result<(), AllocError>
        ensures { OnOk result (spec.Adds self.old self.new (points.source_piece scope.now range.now)) }
    {
        self.push_range(alloc, scope, PointForm::Read, range)?;
        Ok(())
    }

    fn target(&mut self, alloc: Global, scope: &Scope, range: &Range) -> Result<(), AllocError>
        ensures { OnOk result (spec.Adds self.old self.new (points.target_piece scope.now range.now)) }
    {
        self.push_range(alloc, scope, PointForm::Write, range)?;
        Ok(())
    }

    fn answer(&mut self, alloc: Global, scope: &Scope, cell: &Cell) -> Result<(), AllocError>
        ensures { OnOk result (spec.Adds self.old self.new (points.answer_piece scope.now cell.now)) }
    {
        self.push_cell(alloc, scope, PointForm::Into, cell)?;
        Ok(())
    }

    fn live_out(&mut self, alloc: Global, scope: &Scope, cell: &Cell) -> Result<(), AllocError>
        ensures { OnOk result (spec.Adds self.old self.new (points.live_out scope.now cell.now)) }
    {
        self.push_cell(alloc, scope, PointForm::LiveOut, cell)?;
        Ok(())
    }

    fn sources(&mut self, alloc: Global, scope: &Scope, call: &Call) -> Result<(), AllocError>
        ensures { OnOk result (spec.Adds self.old self.new (behind (points.source_piece scope.now call.now.first) (points.piece_of (points.source_piece scope.now) call.now.second))) }
    {
        self.source(alloc, scope, &call.first)?;
        if let Some(second) = &call.second {
            self.source(alloc, scope, second)?;
        }
        Ok(())
    }

    // `for_each` writes the range that it reads.
    fn own(&mut self, alloc: Global, scope: &Scope, call: &Call) -> Result<(), AllocError>
        ensures { OnOk result (spec.Adds self.old self.new (points.own_piece scope.now call.now.form call.now.first)) }
    {
        match call.form {
            CallForm::ForEach => self.target(alloc, scope, &call.first),
            CallForm::Transform
            | CallForm::FindIf
            | CallForm::CountIf
            | CallForm::Reduce
            | CallForm::TransformReduce
            | CallForm::InclusiveScan
            | CallForm::ExclusiveScan
            | CallForm::TransformInclusiveScan
            | CallForm::TransformExclusiveScan => Ok(()),
        }
    }

    fn written(&mut self, alloc: Global, scope: &Scope, call: &Call) -> Result<(), AllocError>
        ensures { OnOk result (spec.Adds self.old self.new (points.piece_of (points.target_piece scope.now) call.now.target)) }
    {
        match &call.target {
            Some(target) => self.target(alloc, scope, target),
            None => Ok(()),
        }
    }

    // The range that is written, and the cell of the answer.
    fn results(&mut self, alloc: Global, scope: &Scope, call: &Call) -> Result<(), AllocError>
        ensures { OnOk result (spec.Adds self.old self.new (behind (points.piece_of (points.target_piece scope.now) call.now.target) (points.piece_of (points.answer_piece scope.now) call.now.store))) }
    {
        self.written(alloc, scope, call)?;
        if let Some(store) = &call.store {
            self.answer(alloc, scope, store)?;
        }
        Ok(())
    }

    /// The points of a call.
    pub fn call_points(
        &mut self,
        alloc: Global,
        scope: &Scope,
        call: &Call,
    ) -> Result<(), AllocError>
        ensures { OnOk result (spec.Adds self.old self.new (points.call_piece scope.now call.now)) }
    {
        self.sources(alloc, scope, call)?;
        self.own(alloc, scope, call)?;
        self.results(alloc, scope, call)
    }

    fn clause(&mut self, alloc: Global, scope: &Scope, clause: &Clause) -> Result<(), AllocError>
        ensures { OnOk result (spec.Adds self.old self.new (points.clause_piece scope.now clause.now)) }
    {
        match clause {
            Clause::Reduce(clause) => self.live_out(alloc, scope, &clause.cell),
            Clause::Induct(clause) => match &clause.initial {
                Initial::Cell(cell) => self.live_out(alloc, scope, cell),
                Initial::Val(_) => Ok(()),
            },
        }
    }

    fn clauses(
        &mut self,
        alloc: Global,
        scope: &Scope,
        clauses: &[Clause],
    ) -> Result<(), AllocError>
        ensures { OnOk result (spec.Adds self.old self.new (sequence (map (points.clause_piece scope.now) clauses.now))) }
    {
        for clause in clauses {
            self.clause(alloc, scope, clause)?;
        }
        Ok(())
    }

    /// The points of a loop whose index runs as it does here.
    pub fn loop_points(&mut self, alloc: Global, scope: &Scope, x: &Loop) -> Result<(), AllocError>
        requires { self.old.space ≡ space_of scope.now x.now }
        ensures { OnOk result (spec.Adds self.old self.new (points.loop_piece scope.now x.now)) }
    {
        self.clauses(alloc, scope, x.clauses.as_slice())?;
        self.body(alloc, scope, x.body.as_slice())
    }
}
