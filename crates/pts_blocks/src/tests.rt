//! Lists of small trees.

use crate::{Exception, Node, NodeEnd, Tree, ends_run, exceptions};
use pts_types::Thrown;
use sqlite_items::Items;
use std::alloc::{AllocError, Global};
use std::test::Fail;

fn node(alloc: Global, end: NodeEnd) -> Node {
    Node {
        end,
        inner: Items::new(alloc),
    }
}

fn threw(alloc: Global, code: u16) -> Node {
    node(alloc, NodeEnd::Threw(Exception::One(Thrown::Code(code))))
}

// A task that threw 7, one that was discarded, one whose own block threw 3, and a body that ended so.
fn tree(alloc: Global, end: NodeEnd) -> Result<Tree, AllocError> {
    let mut list = Items::new(alloc);
    list.push(Exception::One(Thrown::Code(3)))?;
    let mut tasks = Items::new(alloc);
    tasks.push(threw(alloc, 7))?;
    tasks.push(node(alloc, NodeEnd::Discarded))?;
    tasks.push(node(alloc, NodeEnd::Threw(Exception::Many(list))))?;
    Ok(Tree {
        body: node(alloc, end),
        tasks,
    })
}

fn is_code(exception: &Exception, code: u16) -> bool {
    match exception {
        Exception::One(Thrown::Code(own)) => *own == code,
        _ => false,
    }
}

// Whether it is a list of this code alone.
fn is_list_of(exception: &Exception, code: u16) -> bool {
    match exception {
        Exception::Many(list) => match list.as_slice() {
            [one] => is_code(one, code),
            _ => false,
        },
        _ => false,
    }
}

#[test]
fn a_list_has_what_tasks_threw_and_then_the_body(rt: HostRuntime) -> Result<(), Fail> {
    let alloc = rt.alloc();
    let cancelled = tree(alloc, NodeEnd::Cancelled(3))?;
    let list = exceptions(alloc, &cancelled)?;
    match list.as_slice() {
        [first, second] => assert!(rt; is_code(first, 7) && is_list_of(second, 3)),
        _ => assert!(rt; false),
    }
    let threw = tree(alloc, NodeEnd::Threw(Exception::One(Thrown::Code(9))))?;
    let list = exceptions(alloc, &threw)?;
    match list.as_slice() {
        [_, _, last] => assert!(rt; is_code(last, 9)),
        _ => assert!(rt; false),
    }
    Ok(())
}

#[test]
fn a_terminated_node_ends_the_run(rt: HostRuntime) -> Result<(), Fail> {
    let alloc = rt.alloc();
    assert!(rt; ends_run(&tree(alloc, NodeEnd::Terminated)?));
    assert!(rt; !ends_run(&tree(alloc, NodeEnd::Finished)?));
    Ok(())
}
