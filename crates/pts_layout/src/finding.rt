//! Where the points of an item and those of a call are found.

ghost use Rattle.std.specs.Prelude.{◌≡◌, ◌<◌, ◌≤◌, ◌+◌, Some, length, slice_get, slice_range};
ghost use Rattle.pts_points.specs.declared.point.CallInfo.{CallInfo as CallValue};
ghost use Rattle.pts_layout.specs.Layout as layout;
ghost use Rattle.pts_layout.specs.Layout.{AreByItem};

use pts_points::PointInfo;
use pts_program::Program;

/// How many points belong to items before this one, where the points stand item by item.
pub fn points_before(points: &[PointInfo], item: u32) -> usize
    requires { AreByItem points.now }
    ensures { result ≡ layout.points_before points.now item }
{
    let mut low = 0;
    let mut high = points.len();
    while low < high {
        let middle = low + (high - low) / 2;
        if points[middle].item < item {
            low = middle + 1;
        } else {
            high = middle;
        }
    }
    low
}

fn part(points: &[PointInfo], start: usize, count: usize) -> &[PointInfo]
    requires { start + count ≤ length points.now }
    ensures { result.now ≡ slice_range points.now start (start + count) }
{
    &points[start..start + count]
}

/// The points of a call, in the order of their numbers.
pub fn points_of_call(program: &Program, call: usize) -> &[PointInfo]
    requires { call < length program.now.calls }
    ensures { (info : CallValue) → slice_get program.now.calls call ≡ Some info → result.now ≡ layout.points_of_call program.now.points info }
{
    program.keeps_its_promises();
    let info = &program.calls()[call];
    let points = program.points();
    if info.points == 0 {
        return &points[..0];
    }
    let start = points_before(points, info.item) + info.first_point as usize;
    part(points, start, info.points as usize)
}
