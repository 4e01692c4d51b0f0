//! The steps of the statements of a loop's body.

ghost use Rattle.std.specs.Prelude.{◌≡◌, ◌+◌, length, IfOk, OnOk};
ghost use Rattle.pts_tree.specs.declared.loops.Loop as loops;
ghost use Rattle.pts_rules.specs.Counts.{reads};
ghost use Rattle.pts_code.specs.Compiling.{IsCode};
ghost use Rattle.pts_points.specs.declared.space.IterationSpace.{IterationSpace};
ghost use Rattle.pts_points.specs.Pieces.{served, served_off, binding};
ghost use Rattle.pts_points.specs.Points.{reads_of, both_reads, assign_deed, update_deed, kind_of_let, stmt_piece, body_piece};
ghost use Rattle.pts_points.specs.Points as points;
ghost use Rattle.pts_points.proofs.StatementForms as forms;
ghost use Rattle.pts_steps.specs.Building as spec;
ghost use Rattle.pts_steps.specs.Steps.{declares, view_number};

use crate::builder::Builder;
use crate::kinds::{kind_at, kind_of_let, view_kind};
use crate::step::Step;
use pts_code::Code;
use pts_tree::{BodyStmt, Clause, Expr, Loop, Name, Place};
use pts_types::{Kind, NoMemory, ScalarOp};
use std::alloc::{AllocError, Global};

fn declares(clause: &Clause, name: &Name) -> bool
    ensures { result ≡ declares clause.now name.now }
{
    match clause {
        Clause::Reduce(clause) => name.as_str() == clause.view.as_str(),
        Clause::Induct(_) => false,
    }
}

// The number of the first clause with this view.
fn view_number(clauses: &[Clause], name: &Name) -> usize
    ensures { result ≡ view_number clauses.now name.now }
{
    for (at, clause) in clauses.iter().enumerate() {
        if declares(clause, name) {
            return at;
        }
    }
    clauses.len()
}

impl Builder {
    // The Reads of a place that is written and of the value for it, and the code of the value.
    fn value_for(&mut self, alloc: Global, place: &Place, value: &Expr) -> Result<Code, AllocError>
        ensures reads { OnOk result (self.new ≡ spec.with_reads self.old (reads place.now.index + reads value.now)) }
        ensures code { IfOk result (λ code. IsCode self.old.names self.old.spots (points.kind_at self.old.globals place.now.array) (length self.old.steps + reads place.now.index) value.now code) }
    {
        let kind = kind_at(&self.globals, &place.array);
        self.reads(&place.index)?;
        self.compute(alloc, kind, value)
    }

    fn assign(&mut self, alloc: Global, place: &Place, value: &Expr) -> Result<(), AllocError>
        ensures { OnOk result ((x : loops.Loop) (space : IterationSpace) → spec.Goes x self.old self.new (served (both_reads self.old.globals space place.now value.now) (assign_deed self.old.globals space place.now value.now))) }
    {
        let code = self.value_for(alloc, place, value)?;
        self.push(Step::Write(code))
    }

    fn update(
        &mut self,
        alloc: Global,
        place: &Place,
        op: ScalarOp,
        value: &Expr,
    ) -> Result<(), AllocError>
        ensures { OnOk result ((x : loops.Loop) (space : IterationSpace) → spec.Goes x self.old self.new (served_off (both_reads self.old.globals space place.now value.now) (update_deed self.old.globals space place.now op value.now))) }
    {
        let code = self.value_for(alloc, place, value)?;
        self.push(Step::Update(op, code))
    }

    fn bind(&mut self, alloc: Global, name: &Name, value: &Expr) -> Result<(), NoMemory>
        ensures { OnOk result ((x : loops.Loop) (space : IterationSpace) → spec.Goes x self.old self.new (binding name.now (kind_of_let value.now) (reads_of self.old.globals space value.now) (forms.note_deed value.now))) }
    {
        let kind = kind_of_let(&self.kinds, value);
        let code = self.compute(alloc, kind, value)?;
        let number = self.steps.len();
        self.push(Step::Note(code))?;
        self.enter(alloc, name, kind, number)
    }

    fn give(&mut self, alloc: Global, x: &Loop, view: &Name, value: &Expr) -> Result<(), AllocError>
        ensures { OnOk result ((space : IterationSpace) → spec.Goes x.now self.old self.new (served (reads_of self.old.globals space value.now) (forms.give_deed view.now value.now))) }
    {
        let kind = view_kind(&self.kinds, view);
        let clause = view_number(x.clauses.as_slice(), view);
        let code = self.compute(alloc, kind, value)?;
        self.push(Step::Give(clause, code))
    }

    fn test(&mut self, alloc: Global, test: &Expr) -> Result<(), AllocError>
        ensures { OnOk result ((x : loops.Loop) (space : IterationSpace) → spec.Goes x self.old self.new (served (reads_of self.old.globals space test.now) (forms.test_deed test.now))) }
    {
        let code = self.compute(alloc, Kind::Bool, test)?;
        self.push(Step::Test(code))
    }

    // Statements between braces.
    #[cycle(body)]
    fn braces(&mut self, alloc: Global, x: &Loop, body: &[BodyStmt]) -> Result<(), NoMemory>
        ensures { OnOk result ((space : IterationSpace) → spec.GoesInside x.now self.old self.new (body_piece self.old.globals space body.now)) }
    {
        let mark = self.mark();
        self.body(alloc, x, body)?;
        self.leave(mark);
        Ok(())
    }

    /// Statements, one behind the other.
    #[cycle(body)]
    pub fn body(&mut self, alloc: Global, x: &Loop, body: &[BodyStmt]) -> Result<(), NoMemory>
        ensures { OnOk result ((space : IterationSpace) → spec.Goes x.now self.old self.new (body_piece self.old.globals space body.now)) }
    {
        for stmt in body {
            self.stmt(alloc, x, stmt)?;
        }
        Ok(())
    }

    #[cycle(body)]
    fn stmt(&mut self, alloc: Global, x: &Loop, stmt: &BodyStmt) -> Result<(), NoMemory>
        ensures { OnOk result ((space : IterationSpace) → spec.Goes x.now self.old self.new (stmt_piece self.old.globals space stmt.now)) }
    {
        match stmt {
            BodyStmt::Assign(place, value) => Ok(self.assign(alloc, place, value)?),
            BodyStmt::Let(name, value) => self.bind(alloc, name, value),
            BodyStmt::Combine(view, value) => Ok(self.give(alloc, x, view, value)?),
            BodyStmt::If(test, body, other) => {
                self.test(alloc, test)?;
                self.braces(alloc, x, body.as_slice())?;
                if let Some(other) = other {
                    self.braces(alloc, x, other.as_slice())?;
                }
                Ok(())
            }
            BodyStmt::VecOff(body) => self.braces(alloc, x, body.as_slice()),
            BodyStmt::Ordered(place, op, value) => Ok(self.update(alloc, place, *op, value)?),
        }
    }
}
