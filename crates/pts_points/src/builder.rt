//! What is made of an item so far, and where the next point stands.

ghost use Rattle.std.specs.Prelude.{◌≡◌, ◌<◌, ◌^◌, map, IfOk, OnOk};
ghost use Rattle.pts_points.specs.Building as spec;

use crate::numbers::small;
use crate::point::{Branch, CallInfo, PointForm, PointInfo};
use crate::space::{IterationSpace, no_loop};
use pts_affine::Line;
use sqlite_items::Items;
use std::alloc::{AllocError, Global};

/// A side of the test at the point of this number.
#[derive(Clone, Copy, Debug, PartialEq, Eq, Hash)]
pub struct Test {
    pub number: usize,
    pub taken: bool,
}

/// The points and calls of an item so far, and what the next points have in common: their call, how the index of their
/// indices runs, the tests that they stand under, and their `off`.
#[derive(Debug, Drop)]
pub struct Builder {
    pub item: u32,
    /// How many calls stand before those of the item.
    pub earlier: u32,
    pub call: Option<u32>,
    pub space: IterationSpace,
    pub branches: Items<Test>,
    pub off: Option<u32>,
    /// How many numbers of `off` are taken.
    pub offs: u32,
    pub points: Items<PointInfo>,
    pub calls: Items<CallInfo>,
}

impl Builder {
    /// Nothing of an item so far. The item has this number, and `earlier` calls stand before its own.
    pub fn new(alloc: Global, item: u32, earlier: u32) -> Builder
        ensures { result ≡ spec.no_points item earlier }
    {
        Builder {
            item,
            earlier,
            call: None,
            space: no_loop(),
            branches: Items::new(alloc),
            off: None,
            offs: 0,
            points: Items::new(alloc),
            calls: Items::new(alloc),
        }
    }

    // The branches of the next point.
    fn branches_here(&self, alloc: Global) -> Result<Items<Branch>, AllocError>
        ensures { IfOk result (λ xs. xs ≡ map (λ x. spec.kept_branch (spec.branch_of x)) self.now.branches) }
    {
        let mut branches = Items::new(alloc);
        for test in self.branches.as_slice() {
            branches.push(Branch {
                test: small(test.number as u128),
                taken: test.taken,
            })?;
        }
        Ok(branches)
    }

    /// One point more.
    pub fn push(
        &mut self,
        alloc: Global,
        form: PointForm,
        array: u32,
        line: Line,
    ) -> Result<(), AllocError>
        ensures { OnOk result (self.new ≡ spec.pushed self.old form array line) }
    {
        let point = PointInfo {
            item: self.item,
            number: small(self.points.len() as u128),
            call: self.call,
            form,
            array,
            line,
            branches: self.branches_here(alloc)?,
            off: self.off,
        };
        self.points.push(point)
    }
}
