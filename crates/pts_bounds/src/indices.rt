//! Walks over the elements that an item reads and writes.

ghost use Rattle.std.specs.Prelude.{◌≡◌, is_none};
ghost use Rattle.std.specs.List.{list_any};
ghost use Rattle.std.specs.Option.{option_copied};
ghost use Rattle.pts_rules.proofs.Tasks.{task_statements};
ghost use Rattle.pts_rules.specs.Indices as spec;
ghost use Rattle.pts_rules.specs.Parts as parts;
ghost use Rattle.pts_rules.specs.Parts.{block_statements};
ghost use Rattle.pts_bounds.specs.Walks.{any_of_write};

use crate::affine::affine_of;
use pts_rules::Scope;
use pts_tree::{Block, BodyStmt, ChainPart, Expr, Item, Loop, Name, Place, TaskStmt};

fn index_is_not_affine(scope: &Scope, index: Option<&Name>, at: &Expr) -> bool
    ensures { result ≡ is_none (spec.affine_of scope.now (option_copied index.entry) at.now) }
{
    affine_of(scope, index, at).is_none()
}

#[cycle(expr_is_not_affine)]
fn exprs_are_not_affine(scope: &Scope, index: Option<&Name>, exprs: &[Expr]) -> bool
    ensures { result ≡ list_any (λ x. list_any (spec.index_not_affine scope.now (option_copied index.entry)) (spec.elements x)) exprs.now }
{
    for expr in exprs {
        if expr_is_not_affine(scope, index, expr) {
            return true;
        }
    }
    false
}

#[cycle(expr_is_not_affine)]
fn parts_are_not_affine(scope: &Scope, index: Option<&Name>, chain: &[ChainPart]) -> bool
    ensures { result ≡ list_any (λ x. list_any (spec.index_not_affine scope.now (option_copied index.entry)) (spec.elements x.operand)) chain.now }
{
    for part in chain {
        if expr_is_not_affine(scope, index, &part.operand) {
            return true;
        }
    }
    false
}

// An element that an expression reads has an index that is no line.
#[cycle(expr_is_not_affine)]
#[tactic(auto, using(crate::proofs::Somewhere::some_by_form))]
fn expr_is_not_affine(scope: &Scope, index: Option<&Name>, expr: &Expr) -> bool
    ensures { result ≡ list_any (spec.index_not_affine scope.now (option_copied index.entry)) (spec.elements expr.now) }
{
    match expr {
        Expr::Number(_) => false,
        Expr::True => false,
        Expr::False => false,
        Expr::Name(_) => false,
        Expr::Throw(_) => false,
        Expr::Call(_, arguments) => exprs_are_not_affine(scope, index, arguments.as_slice()),
        Expr::Element(_, at) => {
            index_is_not_affine(scope, index, at.get())
                || expr_is_not_affine(scope, index, at.get())
        }
        Expr::Convert(_, expr) => expr_is_not_affine(scope, index, expr.get()),
        Expr::Paren(expr) => expr_is_not_affine(scope, index, expr.get()),
        Expr::Minus(expr) => expr_is_not_affine(scope, index, expr.get()),
        Expr::Not(expr) => expr_is_not_affine(scope, index, expr.get()),
        Expr::Chain(first, chain) => {
            expr_is_not_affine(scope, index, first.get())
                || parts_are_not_affine(scope, index, chain.as_slice())
        }
        Expr::Compare(_, left, right) => {
            expr_is_not_affine(scope, index, left.get())
                || expr_is_not_affine(scope, index, right.get())
        }
        Expr::All(exprs) => exprs_are_not_affine(scope, index, exprs.as_slice()),
        Expr::Any(exprs) => exprs_are_not_affine(scope, index, exprs.as_slice()),
        Expr::If(test, then, other) => {
            expr_is_not_affine(scope, index, test.get())
                || expr_is_not_affine(scope, index, then.get())
                || expr_is_not_affine(scope, index, other.get())
        }
    }
}

fn write_is_not_affine(scope: &Scope, index: Option<&Name>, at: &Place, expr: &Expr) -> bool
    ensures { result ≡ any_of_write (spec.index_not_affine scope.now (option_copied index.entry)) at.now expr.now }
{
    index_is_not_affine(scope, index, &at.index)
        || expr_is_not_affine(scope, index, &at.index)
        || expr_is_not_affine(scope, index, expr)
}

#[cycle(stmt_is_not_affine)]
fn body_is_not_affine(scope: &Scope, index: Option<&Name>, body: &[BodyStmt]) -> bool
    ensures { result ≡ list_any (λ x. list_any (spec.index_not_affine scope.now (option_copied index.entry)) (spec.places x)) body.now }
{
    for stmt in body {
        if stmt_is_not_affine(scope, index, stmt) {
            return true;
        }
    }
    false
}

// An element that a statement reads or writes has an index that is no line.
#[cycle(stmt_is_not_affine)]
#[tactic(auto, using(crate::proofs::Somewhere::stmts_by_form))]
fn stmt_is_not_affine(scope: &Scope, index: Option<&Name>, stmt: &BodyStmt) -> bool
    ensures { result ≡ list_any (spec.index_not_affine scope.now (option_copied index.entry)) (spec.places stmt.now) }
{
    match stmt {
        BodyStmt::Assign(at, expr) => write_is_not_affine(scope, index, at, expr),
        BodyStmt::Let(_, expr) => expr_is_not_affine(scope, index, expr),
        BodyStmt::Combine(_, expr) => expr_is_not_affine(scope, index, expr),
        BodyStmt::If(test, then, other) => {
            let before = expr_is_not_affine(scope, index, test)
                || body_is_not_affine(scope, index, then.as_slice());
            match other {
                Some(other) => before || body_is_not_affine(scope, index, other.as_slice()),
                None => before,
            }
        }
        BodyStmt::VecOff(body) => body_is_not_affine(scope, index, body.as_slice()),
        BodyStmt::Ordered(at, _, expr) => write_is_not_affine(scope, index, at, expr),
    }
}

#[tactic(auto, using(pts_limits::proofs::Walks::any_of_each))]
fn loop_is_not_affine(scope: &Scope, each: &Loop) -> bool
    ensures { result ≡ spec.has_not_affine scope.now (parts.Loop each.now) }
{
    body_is_not_affine(scope, Some(&each.index), each.body.as_slice())
}

#[cycle(task_is_not_affine)]
fn tasks_are_not_affine(scope: &Scope, tasks: &[TaskStmt]) -> bool
    ensures { result ≡ list_any (λ x. list_any (spec.has_not_affine scope.now) (task_statements x)) tasks.now }
{
    for task in tasks {
        if task_is_not_affine(scope, task) {
            return true;
        }
    }
    false
}

#[cycle(task_is_not_affine)]
#[tactic(auto, using(pts_limits::proofs::Walks::any_by_form))]
fn task_is_not_affine(scope: &Scope, task: &TaskStmt) -> bool
    ensures { result ≡ list_any (spec.has_not_affine scope.now) (task_statements task.now) }
{
    match task {
        TaskStmt::Run(tasks) => tasks_are_not_affine(scope, tasks.as_slice()),
        TaskStmt::Wait => false,
        TaskStmt::Throw(_) => false,
        TaskStmt::Assign(_, expr) => expr_is_not_affine(scope, None, expr),
        TaskStmt::Call(_) => false,
        TaskStmt::Loop(each) => loop_is_not_affine(scope, each),
        TaskStmt::Block(block) => block_is_not_affine(scope, block),
    }
}

#[cycle(task_is_not_affine)]
#[tactic(auto, using(pts_limits::proofs::Walks::any_by_form))]
fn block_is_not_affine(scope: &Scope, block: &Block) -> bool
    ensures { result ≡ list_any (spec.has_not_affine scope.now) (block_statements block.now) }
{
    tasks_are_not_affine(scope, block.body.as_slice())
}

/// Whether an item breaks NotAffine: an index in a loop's body, or of an element that an assignment reads, has no factor
/// and offset.
pub fn is_not_affine(scope: &Scope, item: &Item) -> bool
    ensures { result ≡ spec.is_not_affine scope.now item.now }
{
    match item {
        Item::Loop(each) => loop_is_not_affine(scope, each),
        Item::Block(block) => block_is_not_affine(scope, block),
        Item::Const(_) => false,
        Item::Array(_) => false,
        Item::Function(_) => false,
        Item::Call(_) => false,
        Item::Print(_) => false,
    }
}
