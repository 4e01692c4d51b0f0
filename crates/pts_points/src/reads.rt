//! The Reads of expressions.

ghost use Rattle.std.specs.Prelude.{map, OnOk};
ghost use Rattle.pts_points.specs.Building as spec;
ghost use Rattle.pts_points.specs.Pieces.{sequence};
ghost use Rattle.pts_points.specs.Points.{reads_of};

use crate::builder::Builder;
use crate::lines::{kept_array, line_of_index};
use crate::point::PointForm;
use pts_rules::Scope;
use pts_tree::{ChainPart, Expr, Name};
use std::alloc::{AllocError, Global};

impl Builder {
    #[cycle(reads)]
    fn each(&mut self, alloc: Global, scope: &Scope, exprs: &[Expr]) -> Result<(), AllocError>
        ensures { OnOk result (spec.Adds self.old self.new (sequence (map (reads_of scope.now self.old.space) exprs.now))) }
    {
        for expr in exprs {
            self.reads(alloc, scope, expr)?;
        }
        Ok(())
    }

    #[cycle(reads)]
    fn operands(
        &mut self,
        alloc: Global,
        scope: &Scope,
        parts: &[ChainPart],
    ) -> Result<(), AllocError>
        ensures { OnOk result (spec.Adds self.old self.new (sequence (map (λ x. reads_of scope.now self.old.space x.operand) parts.now))) }
    {
        for part in parts {
            self.reads(alloc, scope, &part.operand)?;
        }
        Ok(())
    }

    // A Read of an element, behind those of its index.
    #[cycle(reads)]
    fn element(
        &mut self,
        alloc: Global,
        scope: &Scope,
        array: &Name,
        index: &Expr,
    ) -> Result<(), AllocError>
        ensures { OnOk result (spec.Adds self.old self.new (spec.element_piece scope.now self.old.space array.now index.now)) }
    {
        self.reads(alloc, scope, index)?;
        let line = line_of_index(scope, &self.space, index);
        self.push(alloc, PointForm::Read, kept_array(scope, array), line)
    }

    /// The Reads of an expression, in text order; those of an index stand before the Read that it is the index of.
    #[cycle(reads)]
    pub fn reads(&mut self, alloc: Global, scope: &Scope, expr: &Expr) -> Result<(), AllocError>
        ensures { OnOk result (spec.Adds self.old self.new (reads_of scope.now self.old.space expr.now)) }
    {
        match expr {
            Expr::Number(_) => Ok(()),
            Expr::True => Ok(()),
            Expr::False => Ok(()),
            Expr::Name(_) => Ok(()),
            Expr::Throw(_) => Ok(()),
            Expr::Call(_, exprs) => self.each(alloc, scope, exprs.as_slice()),
            Expr::All(exprs) => self.each(alloc, scope, exprs.as_slice()),
            Expr::Any(exprs) => self.each(alloc, scope, exprs.as_slice()),
            Expr::Element(array, index) => self.element(alloc, scope, array, index.get()),
            Expr::Convert(_, expr) => self.reads(alloc, scope, expr.get()),
            Expr::Paren(expr) => self.reads(alloc, scope, expr.get()),
            Expr::Minus(expr) => self.reads(alloc, scope, expr.get()),
            Expr::Not(expr) => self.reads(alloc, scope, expr.get()),
            Expr::Chain(first, parts) => {
                self.reads(alloc, scope, first.get())?;
                self.operands(alloc, scope, parts.as_slice())
            }
            Expr::Compare(_, left, right) => {
                self.reads(alloc, scope, left.get())?;
                self.reads(alloc, scope, right.get())
            }
            Expr::If(test, then, other) => {
                self.reads(alloc, scope, test.get())?;
                self.reads(alloc, scope, then.get())?;
                self.reads(alloc, scope, other.get())
            }
        }
    }
}
