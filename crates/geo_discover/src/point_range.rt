//! The points of a figure, one after another.

ghost use Rattle.std.specs.Iterator.{YieldsFirst};
ghost use Rattle.std.specs.Prelude.{◌≡◌, []};
ghost use Rattle.geo_discover.specs.Inner.Walks.{points_behind, points_left};

use geo_points::PointId;

/// The points that are left of a row.
#[derive(Clone, Copy)]
pub(crate) struct PointRange {
    /// The number of the next one.
    pub from: u32,
    /// The number behind the last one.
    pub end: u32,
}

impl PointRange {
    /// The first points, so many.
    pub fn first(points: u32) -> PointRange
        ensures { points_left result ≡ points_behind 0 points }
    {
        PointRange {
            from: 0,
            end: points,
        }
    }

    /// None.
    pub fn none() -> PointRange
        ensures { points_left result ≡ [] }
    {
        PointRange { from: 0, end: 0 }
    }

    /// The next point.
    pub fn next(&mut self) -> Option<PointId>
        ensures { YieldsFirst points_left self.old result self.new }
    {
        if self.from >= self.end {
            return None;
        }
        let point = PointId(self.from);
        self.from += 1;
        Some(point)
    }
}
