//! Points and calls as lists show them.

use pts_affine::Line;
use pts_types::Policy;
use sqlite_items::Items;

/// What a point does: `Update` reads and writes, `LiveOut` and `Into` write, `Into` after all reads of its call, and `Plain`
/// touches nothing.
#[derive(Clone, Copy, Debug, PartialEq, Eq, Hash)]
pub enum PointForm {
    Read,
    Write,
    Update,
    LiveOut,
    Into,
    Plain,
}

/// A side of a test, by the number of the test's point.
#[derive(Clone, Copy, Debug, PartialEq, Eq, Hash)]
pub struct Branch {
    pub test: u32,
    pub taken: bool,
}

/// A point of an item: what is done at one place of the text, at each position of the statement that it is in.
#[derive(Debug, Drop)]
pub struct PointInfo {
    pub item: u32,
    /// From 0 in the item.
    pub number: u32,
    /// The call that the point is of, from 0 over all items; an assignment of a block is of none.
    pub call: Option<u32>,
    pub form: PointForm,
    /// 0 at a `Plain` point.
    pub array: u32,
    /// The cell at each position; no cells at a `Plain` point.
    pub line: Line,
    /// The tests that the point stands under, outermost first.
    pub branches: Items<Branch>,
    /// The `vec_off` block around the point, or the `ordered` update that it is, by the numbers of those that stand in no
    /// other one.
    pub off: Option<u32>,
}

/// A call of an algorithm, or a loop.
#[derive(Clone, Copy, Debug, PartialEq, Eq, Hash)]
pub struct CallInfo {
    pub item: u32,
    pub policy: Policy,
    /// The elements of its first range, or the turns of the loop.
    pub positions: u32,
    /// How many points of the item stand before those of the call.
    pub first_point: u32,
    /// How many points the call has.
    pub points: u32,
}
