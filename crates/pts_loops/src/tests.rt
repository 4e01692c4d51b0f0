//! A loop with nothing in its body.

ghost use Rattle.std.specs.Prelude.{◌≡◌, [], IfOk};

use crate::LoopAnswer;
use crate::run::Run;
use pts_boards::{NoGate, Pool};
use pts_code::Codes;
use pts_lowering::LoweredLoop;
use pts_store::Store;
use pts_tree::{Atom, Loop, Name, Sum};
use pts_types::Policy;
use sqlite_items::Items;
use std::alloc::{AllocError, Global};
use std::test::Fail;

fn number(alloc: Global, n: u64) -> Sum {
    Sum {
        negative: false,
        first: Atom::Number(n),
        rest: Items::new(alloc),
    }
}

// `for_loop par i = 0 to 3 { }`
fn text(alloc: Global) -> Result<Loop, AllocError>
    ensures clauses { IfOk result (λ x. x.clauses ≡ []) }
    ensures body { IfOk result (λ x. x.body ≡ []) }
{
    Ok(Loop {
        policy: Policy::Par,
        index: Name::new("i".to_string(alloc)?),
        low: number(alloc, 0),
        high: number(alloc, 3),
        step: None,
        clauses: Items::new(alloc),
        body: Items::new(alloc),
    })
}

// How many groups an answer has; None where it is not Written.
fn groups(answer: &LoopAnswer) -> Option<usize> {
    match answer {
        LoopAnswer::Written { grouping, .. } => Some(grouping.groups.len()),
        LoopAnswer::Terminated { .. } => None,
    }
}

#[test]
fn a_loop_without_statements_is_written(rt: HostRuntime) -> Result<(), Fail> {
    let alloc = rt.alloc();
    let text = text(alloc)?;
    let head = LoweredLoop {
        policy: Policy::Par,
        first: 0,
        step: 0,
        positions: 3,
        clauses: Items::new(alloc),
    };
    let functions = Codes::new(alloc);
    let store = Store::new(alloc);
    let run = Run {
        call: 0,
        text: &text,
        head: &head,
        steps: &[],
        points: &[],
        first_point: 0,
        arrays: &[],
        functions: &functions,
    };
    let pool = Pool::new(2, 2).ok_or("no pool")?;
    let answer = run.run(alloc, &NoGate, pool, &store)?;
    assert_eq!(rt; groups(&answer), Some(1));
    Ok(())
}
