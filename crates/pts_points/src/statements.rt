//! The points of the statements of a loop's body.

ghost use Rattle.std.specs.Prelude.{◌≡◌, ◌+◌, length, IfOk, OnOk};
ghost use Rattle.pts_types.specs.declared.operation.ScalarOp.{ScalarOp};
ghost use Rattle.pts_points.specs.Building as spec;
ghost use Rattle.pts_points.specs.Pieces.{served, served_off, off_vector};
ghost use Rattle.pts_points.specs.Points.{reads_of, both_reads, assign_deed, update_deed, stmt_piece, body_piece};

use crate::builder::{Builder, Test};
use crate::lines::{kept_array, line_of_index};
use crate::point::PointForm;
use pts_affine::Line;
use pts_rules::Scope;
use pts_tree::{BodyStmt, Expr, Place};
use sqlite_items::Items;
use std::alloc::{AllocError, Global};
use std::mem::replace;

impl Builder {
    fn push_place(
        &mut self,
        alloc: Global,
        scope: &Scope,
        form: PointForm,
        place: &Place,
    ) -> Result<(), AllocError>
        ensures { OnOk result (self.new ≡ spec.pushed_at scope.now self.old form place.now) }
    {
        let line = line_of_index(scope, &self.space, &place.index);
        self.push(alloc, form, kept_array(scope, &place.array), line)
    }

    // The Reads of a place that is written and of the value for it.
    fn both(
        &mut self,
        alloc: Global,
        scope: &Scope,
        place: &Place,
        value: &Expr,
    ) -> Result<(), AllocError>
        ensures { OnOk result (spec.Adds self.old self.new (both_reads scope.now self.old.space place.now value.now)) }
    {
        self.reads(alloc, scope, &place.index)?;
        self.reads(alloc, scope, value)
    }

    fn assign(
        &mut self,
        alloc: Global,
        scope: &Scope,
        place: &Place,
        value: &Expr,
    ) -> Result<(), AllocError>
        ensures { OnOk result (spec.Adds self.old self.new (served (both_reads scope.now self.old.space place.now value.now) (assign_deed scope.now self.old.space place.now value.now))) }
    {
        self.both(alloc, scope, place, value)?;
        self.push_place(alloc, scope, PointForm::Write, place)
    }

    // The Reads of an expression and a point that touches nothing, whose number is given.
    fn compute(&mut self, alloc: Global, scope: &Scope, value: &Expr) -> Result<usize, AllocError>
        ensures number { IfOk result (λ n. n + 1 ≡ length self.new.points) }
        ensures points { OnOk result (spec.AddsPlain self.old self.new (reads_of scope.now self.old.space value.now)) }
    {
        self.reads(alloc, scope, value)?;
        let number = self.points.len();
        let line = Line { c: 0, d: 0, n: 0 };
        self.push(alloc, PointForm::Plain, 0, line)?;
        Ok(number)
    }

    // From here on off the vector.
    fn leave_vector(&mut self)
        ensures { self.new ≡ spec.off_builder self.old }
    {
        self.off = Some(self.off.unwrap_or(self.offs));
    }

    // Back from off the vector: the `off` that stood around it, and the next number where there was none.
    fn back_on(&mut self, off: Option<u32>) -> Result<(), AllocError>
        ensures { OnOk result (self.new ≡ spec.back_on off self.old) }
    {
        if off.is_none() {
            if self.offs == u32::MAX {
                return Err(AllocError);
            }
            self.offs += 1;
        }
        self.off = off;
        Ok(())
    }

    fn update(
        &mut self,
        alloc: Global,
        scope: &Scope,
        place: &Place,
        value: &Expr,
    ) -> Result<(), AllocError>
        ensures { OnOk result ((op : ScalarOp) → spec.Adds self.old self.new (served_off (both_reads scope.now self.old.space place.now value.now) (update_deed scope.now self.old.space place.now op value.now))) }
    {
        let around = self.off;
        self.both(alloc, scope, place, value)?;
        self.leave_vector();
        self.push_place(alloc, scope, PointForm::Update, place)?;
        self.back_on(around)?;
        Ok(())
    }

    // The statements of a branch.
    #[cycle(body)]
    fn branch(
        &mut self,
        alloc: Global,
        scope: &Scope,
        test: Test,
        body: &[BodyStmt],
    ) -> Result<(), AllocError>
        ensures { OnOk result (spec.AddsUnder test self.old self.new (body_piece scope.now self.old.space body.now)) }
    {
        let mut inner = Items::from_slice(alloc, self.branches.as_slice())?;
        inner.push(test)?;
        let outer = replace(&mut self.branches, inner);
        self.body(alloc, scope, body)?;
        self.branches = outer;
        Ok(())
    }

    #[cycle(body)]
    fn off_vector(
        &mut self,
        alloc: Global,
        scope: &Scope,
        body: &[BodyStmt],
    ) -> Result<(), AllocError>
        ensures { OnOk result (spec.Adds self.old self.new (off_vector (body_piece scope.now self.old.space body.now))) }
    {
        let off = self.off;
        self.leave_vector();
        self.body(alloc, scope, body)?;
        self.back_on(off)
    }

    /// The points of statements, one behind the other.
    #[cycle(body)]
    pub fn body(
        &mut self,
        alloc: Global,
        scope: &Scope,
        body: &[BodyStmt],
    ) -> Result<(), AllocError>
        ensures { OnOk result (spec.Adds self.old self.new (body_piece scope.now self.old.space body.now)) }
    {
        for stmt in body {
            self.stmt(alloc, scope, stmt)?;
        }
        Ok(())
    }

    #[cycle(body)]
    fn stmt(&mut self, alloc: Global, scope: &Scope, stmt: &BodyStmt) -> Result<(), AllocError>
        ensures { OnOk result (spec.Adds self.old self.new (stmt_piece scope.now self.old.space stmt.now)) }
    {
        match stmt {
            BodyStmt::Assign(place, value) => self.assign(alloc, scope, place, value),
            BodyStmt::Let(_, value) => {
                self.compute(alloc, scope, value)?;
                Ok(())
            }
            BodyStmt::Combine(_, value) => {
                self.compute(alloc, scope, value)?;
                Ok(())
            }
            BodyStmt::If(test, body, other) => {
                let number = self.compute(alloc, scope, test)?;
                let yes = Test {
                    number,
                    taken: true,
                };
                self.branch(alloc, scope, yes, body.as_slice())?;
                if let Some(other) = other {
                    let no = Test {
                        number,
                        taken: false,
                    };
                    self.branch(alloc, scope, no, other.as_slice())?;
                }
                Ok(())
            }
            BodyStmt::VecOff(body) => self.off_vector(alloc, scope, body.as_slice()),
            BodyStmt::Ordered(place, _, value) => self.update(alloc, scope, place, value),
        }
    }
}
