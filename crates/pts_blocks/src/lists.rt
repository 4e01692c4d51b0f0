//! What the tree of a block says of its end: the list that it throws, and whether it ends the run.

ghost use Rattle.std.specs.Prelude.{◌≡◌, ◌++◌, IfOk, OnOk};
ghost use Rattle.pts_blocks.specs.Trees as spec;
ghost use Rattle.pts_blocks.specs.Trees.{exceptions_of, some_own_end, thrown};

use crate::trees::{Exception, NodeEnd, Tree};
use pts_types::NoMemory;
use sqlite_items::Items;
use std::alloc::{AllocError, Global};

#[cycle(copy)]
fn copy_exceptions(alloc: Global, list: &[Exception]) -> Result<Items<Exception>, AllocError>
    ensures { IfOk result (λ copy. copy ≡ list.now) }
{
    let mut copy = Items::new(alloc);
    for exception in list {
        copy.push(copy_exception(alloc, exception)?)?;
    }
    Ok(copy)
}

#[cycle(copy)]
fn copy_exception(alloc: Global, exception: &Exception) -> Result<Exception, AllocError>
    ensures { IfOk result (λ copy. copy ≡ exception.now) }
{
    match exception {
        Exception::One(thrown) => Ok(Exception::One(*thrown)),
        Exception::Many(list) => Ok(Exception::Many(copy_exceptions(alloc, list.as_slice())?)),
    }
}

// Adds the exception that left a node, if one did.
fn add_thrown(alloc: Global, end: &NodeEnd, list: &mut Items<Exception>) -> Result<(), AllocError>
    ensures { OnOk result (list.new ≡ list.old ++ thrown end.now) }
{
    match end {
        NodeEnd::Threw(exception) => list.push(copy_exception(alloc, exception)?),
        _ => Ok(()),
    }
}

/// The exception list of a block: those of its tasks in the order in which they were spawned, and then that of its body. It is empty
/// exactly where no node of the block itself threw.
pub fn exceptions(alloc: Global, tree: &Tree) -> Result<Items<Exception>, NoMemory>
    ensures { IfOk result (λ list. list ≡ exceptions_of tree.now) }
{
    let mut list = Items::new(alloc);
    for task in tree.tasks.as_slice() {
        add_thrown(alloc, &task.end, &mut list)?;
    }
    add_thrown(alloc, &tree.body.end, &mut list)?;
    Ok(list)
}

// Whether a node ended the run.
fn is_terminated(end: &NodeEnd) -> bool
    ensures { result ≡ spec.is_terminated end.now }
{
    match end {
        NodeEnd::Terminated => true,
        _ => false,
    }
}

/// Whether a block ends the run: whether one of its nodes is terminated. In a tree that fits a block this holds too where a node of a
/// block inside is.
pub fn ends_run(tree: &Tree) -> bool
    ensures { result ≡ some_own_end spec.is_terminated tree.now }
{
    for task in tree.tasks.as_slice() {
        if is_terminated(&task.end) {
            return true;
        }
    }
    is_terminated(&tree.body.end)
}
