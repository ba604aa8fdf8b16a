//! Each three of some points, the earlier first.

ghost use Rattle.std.specs.Iterator.{YieldsFirst};
ghost use Rattle.std.specs.Prelude.{◌≡◌};
ghost use Rattle.geo_discover.specs.Candidates.{triples};
ghost use Rattle.geo_discover.specs.Inner.Walks.{points_left, triples_left};

use crate::pairs::Pairs;
use crate::point_range::PointRange;
use geo_points::PointId;

/// The triples that are left.
#[derive(Clone, Copy)]
pub(crate) struct Triples {
    /// The first point of the next ones.
    pub first: PointId,
    /// Their other points.
    pub others: Pairs,
    /// The points of those behind them.
    pub later: PointRange,
}

impl Triples {
    /// All triples of these points.
    pub fn of(points: PointRange) -> Triples
        ensures { triples_left result ≡ triples (points_left points) }
    {
        Triples {
            first: PointId(0),
            others: Pairs::of(PointRange::none()),
            later: points,
        }
    }

    /// The next triple.
    pub fn next(&mut self) -> Option<(PointId, PointId, PointId)>
        ensures { YieldsFirst triples_left self.old result self.new }
    {
        if let Some((b, c)) = self.others.next() {
            return Some((self.first, b, c));
        }
        self.first = self.later.next()?;
        self.others = Pairs::of(self.later);
        let (b, c) = self.others.next()?;
        Some((self.first, b, c))
    }
}
