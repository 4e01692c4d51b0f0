//! Ranges of calls, and cells.

ghost use Rattle.std.specs.Prelude.{◌≡◌, IsTrue};
ghost use Rattle.pts_tree.specs.Spelling.{if_there};
ghost use Rattle.pts_bounds.specs.Firsts.{soonest};
ghost use Rattle.pts_bounds.specs.Walks as spec;
ghost use Rattle.pts_rules.specs.Indices as rules;
ghost use Rattle.pts_rules.specs.Mistyped.{call_right, range_right};
ghost use Rattle.pts_rules.specs.Parts as parts;

use crate::firsts::{first_off, sooner, span_first};
use pts_limits::number;
use pts_rules::{Meaning, Scope};
use pts_tree::{Call, Cell, Clause, Initial, Name, Range};

// The length of an array, and 0 of what is no array.
pub fn length_of(scope: &Scope, name: &Name) -> i64
    ensures { result ≡ rules.length_of scope.now name.now }
{
    match scope.meaning(name) {
        Some(Meaning::Array(_, length)) => *length,
        _ => 0,
    }
}

#[tactic(auto, using(crate::proofs::Rightness::range_low, crate::proofs::Soonest::soonest_one))]
fn range_first(scope: &Scope, range: &Range) -> Option<u64>
    requires { IsTrue (range_right scope.now range.now) }
    ensures { result ≡ spec.first_of (rules.range_reach scope.now range.now) }
{
    span_first(
        number(scope, &range.low),
        number(scope, &range.high),
        length_of(scope, &range.array),
    )
}

fn range_there_first(scope: &Scope, range: &Option<Range>) -> Option<u64>
    requires { IsTrue (if_there (range_right scope.now) range.now) }
    ensures { result ≡ spec.first_of (rules.reach_of (rules.range_reach scope.now) range.now) }
{
    match range {
        Some(range) => range_first(scope, range),
        None => None,
    }
}

#[tactic(auto, using(crate::proofs::Soonest::soonest_one))]
pub fn cell_first(scope: &Scope, cell: &Cell) -> Option<u64>
    ensures { result ≡ spec.first_of (rules.cell_reach scope.now cell.now) }
{
    first_off(
        0,
        number(scope, &cell.index),
        1,
        length_of(scope, &cell.array),
    )
}

fn cell_there_first(scope: &Scope, cell: &Option<Cell>) -> Option<u64>
    ensures { result ≡ spec.first_of (rules.reach_of (rules.cell_reach scope.now) cell.now) }
{
    match cell {
        Some(cell) => cell_first(scope, cell),
        None => None,
    }
}

#[tactic(auto, using(crate::proofs::Rightness::call_ranges, crate::proofs::Reaching::call_found))]
pub fn call_first(scope: &Scope, call: &Call) -> Option<u64>
    requires { IsTrue (call_right scope.now call.now) }
    ensures { result ≡ spec.first_in scope.now (parts.Call call.now) }
{
    let first = range_first(scope, &call.first);
    let second = range_there_first(scope, &call.second);
    let target = range_there_first(scope, &call.target);
    sooner(
        sooner(sooner(first, second), target),
        cell_there_first(scope, &call.store),
    )
}

fn clause_first(scope: &Scope, clause: &Clause) -> Option<u64>
    ensures { result ≡ spec.clause_first scope.now clause.now }
{
    match clause {
        Clause::Reduce(reduce) => cell_first(scope, &reduce.cell),
        Clause::Induct(induct) => match &induct.initial {
            Initial::Val(_) => None,
            Initial::Cell(cell) => cell_first(scope, cell),
        },
    }
}

pub fn clauses_first(scope: &Scope, clauses: &[Clause]) -> Option<u64>
    ensures { result ≡ soonest (spec.clause_first scope.now) clauses.now }
{
    let mut first = None;
    for clause in clauses {
        first = sooner(first, clause_first(scope, clause));
    }
    first
}
