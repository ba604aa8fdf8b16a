//! Each two segments between some points, the earlier first.

ghost use Rattle.std.specs.Iterator.{YieldsFirst};
ghost use Rattle.std.specs.Prelude.{◌≡◌};
ghost use Rattle.geo_discover.specs.Candidates.{segments_over};
ghost use Rattle.geo_discover.specs.Inner.Walks.{points_left, segments_left};

use crate::pairs::Pairs;
use crate::point_range::PointRange;
use geo_points::PointId;

/// Two segments, each by its two points.
pub(crate) type Two = ((PointId, PointId), (PointId, PointId));

/// The pairs of segments that are left.
#[derive(Clone, Copy)]
pub(crate) struct Segments {
    /// The first segment of the next ones.
    pub first: (PointId, PointId),
    /// Their second segments.
    pub seconds: Pairs,
    /// The segments of those behind them.
    pub later: Pairs,
}

impl Segments {
    /// All pairs of segments between these points.
    pub fn of(points: PointRange) -> Segments
        ensures { segments_left result ≡ segments_over (points_left points) }
    {
        Segments {
            first: (PointId(0), PointId(0)),
            seconds: Pairs::of(PointRange::none()),
            later: Pairs::of(points),
        }
    }

    /// The next two segments.
    pub fn next(&mut self) -> Option<Two>
        ensures { YieldsFirst segments_left self.old result self.new }
    {
        if let Some(second) = self.seconds.next() {
            return Some((self.first, second));
        }
        self.first = self.later.next()?;
        self.seconds = self.later;
        let second = self.seconds.next()?;
        Some((self.first, second))
    }
}
