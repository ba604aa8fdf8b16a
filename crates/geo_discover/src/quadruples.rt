//! Each four of some points, the earlier first.

ghost use Rattle.std.specs.Iterator.{YieldsFirst};
ghost use Rattle.std.specs.Prelude.{◌≡◌};
ghost use Rattle.geo_discover.specs.Candidates.{quadruples};
ghost use Rattle.geo_discover.specs.Inner.Walks.{points_left, quadruples_left};

use crate::point_range::PointRange;
use crate::triples::Triples;
use geo_points::PointId;

/// The quadruples that are left.
#[derive(Clone, Copy)]
pub(crate) struct Quadruples {
    /// The first point of the next ones.
    pub first: PointId,
    /// Their other points.
    pub others: Triples,
    /// The points of those behind them.
    pub later: PointRange,
}

impl Quadruples {
    /// All quadruples of these points.
    pub fn of(points: PointRange) -> Quadruples
        ensures { quadruples_left result ≡ quadruples (points_left points) }
    {
        Quadruples {
            first: PointId(0),
            others: Triples::of(PointRange::none()),
            later: points,
        }
    }

    /// The next quadruple.
    pub fn next(&mut self) -> Option<(PointId, PointId, PointId, PointId)>
        ensures { YieldsFirst quadruples_left self.old result self.new }
    {
        if let Some((b, c, d)) = self.others.next() {
            return Some((self.first, b, c, d));
        }
        self.first = self.later.next()?;
        self.others = Triples::of(self.later);
        let (b, c, d) = self.others.next()?;
        Some((self.first, b, c, d))
    }
}
