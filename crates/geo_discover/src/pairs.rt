//! Each two of some points, the earlier first.

ghost use Rattle.std.specs.Iterator.{YieldsFirst};
ghost use Rattle.std.specs.Prelude.{◌≡◌};
ghost use Rattle.geo_discover.specs.Candidates.{pairs};
ghost use Rattle.geo_discover.specs.Inner.Walks.{pairs_left, points_left};

use crate::point_range::PointRange;
use geo_points::PointId;

/// The pairs that are left.
#[derive(Clone, Copy)]
pub(crate) struct Pairs {
    /// The first point of the next ones.
    pub first: PointId,
    /// Their second points.
    pub seconds: PointRange,
    /// The points of those behind them.
    pub later: PointRange,
}

impl Pairs {
    /// All pairs of these points.
    pub fn of(points: PointRange) -> Pairs
        ensures { pairs_left result ≡ pairs (points_left points) }
    {
        Pairs {
            first: PointId(0),
            seconds: PointRange::none(),
            later: points,
        }
    }

    /// The next pair.
    pub fn next(&mut self) -> Option<(PointId, PointId)>
        ensures { YieldsFirst pairs_left self.old result self.new }
    {
        if let Some(second) = self.seconds.next() {
            return Some((self.first, second));
        }
        self.first = self.later.next()?;
        self.seconds = self.later;
        let second = self.seconds.next()?;
        Some((self.first, second))
    }
}
