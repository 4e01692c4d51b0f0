//! How many points statements have.

ghost use Rattle.std.specs.Prelude.{◌≡◌, map, sum};
ghost use Rattle.pts_rules.proofs.Tasks.{task_statements};
ghost use Rattle.pts_rules.specs.Counts as spec;
ghost use Rattle.pts_rules.specs.Limits as limits;
ghost use Rattle.pts_rules.specs.Parts.{block_statements};
ghost use Rattle.pts_rules.specs.Parts as parts;
ghost use Rattle.pts_limits.specs.Amounts.{capped};

use pts_tree::{
    Block, BodyStmt, Call, CallForm, Cell, ChainPart, Clause, Expr, Initial, Item, Loop, Range,
    TaskStmt,
};

#[cycle(reads)]
#[tactic(auto, using(crate::proofs::Lists::sum_more))]
fn reads_of(exprs: &[Expr]) -> u64
    ensures { result ≡ capped (sum (map spec.reads exprs.now)) }
{
    let mut count: u64 = 0;
    for expr in exprs {
        count = count.saturating_add(reads(expr));
    }
    count
}

#[cycle(reads)]
#[tactic(auto, using(crate::proofs::Lists::sum_more))]
fn part_reads(parts: &[ChainPart]) -> u64
    ensures { result ≡ capped (sum (map (λ y. spec.reads y.operand) parts.now)) }
{
    let mut count: u64 = 0;
    for part in parts {
        count = count.saturating_add(reads(&part.operand));
    }
    count
}

/// How many elements an expression reads, those inside of indices too; the greatest `u64` where there are more.
#[cycle(reads)]
#[tactic(auto, using(pts_rules::proofs::ElementCounts::reads_by_form))]
pub fn reads(expr: &Expr) -> u64
    ensures { result ≡ capped (spec.reads expr.now) }
{
    match expr {
        Expr::Number(_) => 0,
        Expr::True => 0,
        Expr::False => 0,
        Expr::Name(_) => 0,
        Expr::Throw(_) => 0,
        Expr::Call(_, arguments) => reads_of(arguments.as_slice()),
        Expr::Element(_, index) => reads(index.get()).saturating_add(1),
        Expr::Convert(_, expr) => reads(expr.get()),
        Expr::Paren(expr) => reads(expr.get()),
        Expr::Minus(expr) => reads(expr.get()),
        Expr::Not(expr) => reads(expr.get()),
        Expr::Chain(first, parts) => reads(first.get()).saturating_add(part_reads(
            parts.as_slice(),
        )),
        Expr::Compare(_, left, right) => reads(left.get()).saturating_add(reads(right.get())),
        Expr::All(exprs) => reads_of(exprs.as_slice()),
        Expr::Any(exprs) => reads_of(exprs.as_slice()),
        Expr::If(test, then, other) => reads(test.get())
            .saturating_add(reads(then.get()))
            .saturating_add(reads(other.get())),
    }
}

#[cycle(body_points)]
#[tactic(auto, using(crate::proofs::Lists::sum_more))]
fn points_of_body(body: &[BodyStmt]) -> u64
    ensures { result ≡ capped (sum (map spec.body_points body.now)) }
{
    let mut count: u64 = 0;
    for stmt in body {
        count = count.saturating_add(body_points(stmt));
    }
    count
}

#[cycle(body_points)]
#[tactic(auto, using(pts_rules::proofs::Bodies::points_by_form))]
fn body_points(stmt: &BodyStmt) -> u64
    ensures { result ≡ capped (spec.body_points stmt.now) }
{
    match stmt {
        BodyStmt::Assign(_, expr) => reads(expr).saturating_add(1),
        BodyStmt::Let(_, expr) => reads(expr).saturating_add(1),
        BodyStmt::Combine(_, expr) => reads(expr).saturating_add(1),
        BodyStmt::If(test, then, other) => {
            let points = reads(test)
                .saturating_add(1)
                .saturating_add(points_of_body(then.as_slice()));
            match other {
                Some(other) => points.saturating_add(points_of_body(other.as_slice())),
                None => points,
            }
        }
        BodyStmt::VecOff(body) => points_of_body(body.as_slice()),
        BodyStmt::Ordered(_, _, expr) => reads(expr).saturating_add(1),
    }
}

fn clause_points(clause: &Clause) -> u64
    ensures { result ≡ spec.clause_points clause.now }
{
    match clause {
        Clause::Reduce(_) => 1,
        Clause::Induct(induct) => match &induct.initial {
            Initial::Val(_) => 0,
            Initial::Cell(_) => 1,
        },
    }
}

#[tactic(auto, using(crate::proofs::Lists::sum_more))]
fn points_of_clauses(clauses: &[Clause]) -> u64
    ensures { result ≡ capped (sum (map spec.clause_points clauses.now)) }
{
    let mut count: u64 = 0;
    for clause in clauses {
        count = count.saturating_add(clause_points(clause));
    }
    count
}

fn own_points(form: CallForm) -> u64
    ensures { result ≡ spec.own_points form }
{
    match form {
        CallForm::ForEach => 2,
        _ => 1,
    }
}

fn range_points(range: &Option<Range>) -> u64
    ensures { result ≡ spec.there range.now }
{
    match range {
        None => 0,
        Some(_) => 1,
    }
}

fn cell_points(cell: &Option<Cell>) -> u64
    ensures { result ≡ spec.there cell.now }
{
    match cell {
        None => 0,
        Some(_) => 1,
    }
}

/// How many points a call has.
pub fn call_points(call: &Call) -> u64
    ensures { result ≡ spec.statement_points (parts.Call call.now) }
{
    own_points(call.form)
        + range_points(&call.second)
        + range_points(&call.target)
        + cell_points(&call.store)
}

/// How many points a loop has; the greatest `u64` where there are more.
pub fn points_of_loop(each: &Loop) -> u64
    ensures { result ≡ capped (spec.statement_points (parts.Loop each.now)) }
{
    points_of_clauses(each.clauses.as_slice()).saturating_add(points_of_body(each.body.as_slice()))
}

#[cycle(task_points)]
#[tactic(auto, using(crate::proofs::Lists::sum_more))]
fn points_of_tasks(tasks: &[TaskStmt]) -> u64
    ensures { result ≡ capped (sum (map (λ x. sum (map spec.statement_points (task_statements x))) tasks.now)) }
{
    let mut count: u64 = 0;
    for task in tasks {
        count = count.saturating_add(task_points(task));
    }
    count
}

#[cycle(task_points)]
#[tactic(auto, using(crate::proofs::Walks::points_by_form))]
fn task_points(task: &TaskStmt) -> u64
    ensures { result ≡ capped (sum (map spec.statement_points (task_statements task.now))) }
{
    match task {
        TaskStmt::Run(tasks) => points_of_tasks(tasks.as_slice()),
        TaskStmt::Wait => 0,
        TaskStmt::Throw(_) => 0,
        TaskStmt::Assign(_, expr) => reads(expr).saturating_add(1),
        TaskStmt::Call(call) => call_points(call),
        TaskStmt::Loop(each) => points_of_loop(each),
        TaskStmt::Block(block) => block_points(block),
    }
}

#[cycle(task_points)]
#[tactic(auto, using(crate::proofs::Walks::points_by_form))]
fn block_points(block: &Block) -> u64
    ensures { result ≡ capped (sum (map spec.statement_points (block_statements block.now))) }
{
    points_of_tasks(block.body.as_slice())
}

/// How many points an item has, or the greatest `u64` where there are more.
pub fn points(item: &Item) -> u64
    ensures { result ≡ capped (limits.points item.now) }
{
    match item {
        Item::Call(call) => call_points(call),
        Item::Loop(each) => points_of_loop(each),
        Item::Block(block) => block_points(block),
        Item::Const(_) => 0,
        Item::Array(_) => 0,
        Item::Function(_) => 0,
        Item::Print(_) => 0,
    }
}
