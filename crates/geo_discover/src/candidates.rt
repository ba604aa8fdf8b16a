//! The candidates of a figure, one after another.

ghost use Rattle.std.specs.Iterator.{YieldsFirst};
ghost use Rattle.std.specs.Prelude.{◌≡◌};
ghost use Rattle.geo_discover.specs.Candidates.{candidates_over};
ghost use Rattle.geo_discover.specs.Inner.Walks.{candidates_left, points_behind};

use crate::point_range::PointRange;
use crate::quadruples::Quadruples;
use crate::segment_candidates::{Kind, SegmentCandidates};
use crate::triples::Triples;
use geo_program::Statement;

/// The candidates that are left, kind by kind.
#[derive(Clone, Copy)]
pub(crate) struct Candidates {
    /// Three points on a line.
    pub collinear: Triples,
    /// Parallel segments.
    pub parallel: SegmentCandidates,
    /// Perpendicular segments.
    pub perpendicular: SegmentCandidates,
    /// Segments of the same length.
    pub same_length: SegmentCandidates,
    /// Four points on a circle.
    pub concyclic: Quadruples,
}

impl Candidates {
    /// All candidates over so many points.
    pub fn over(points: u32) -> Candidates
        ensures { candidates_left result ≡ candidates_over (points_behind 0 points) }
    {
        let points = PointRange::first(points);
        Candidates {
            collinear: Triples::of(points),
            parallel: SegmentCandidates::of(Kind::Parallel, points),
            perpendicular: SegmentCandidates::of(Kind::Perpendicular, points),
            same_length: SegmentCandidates::of(Kind::SameLength, points),
            concyclic: Quadruples::of(points),
        }
    }

    /// The next candidate.
    pub fn next(&mut self) -> Option<Statement>
        ensures { YieldsFirst candidates_left self.old result self.new }
    {
        if let Some((a, b, c)) = self.collinear.next() {
            return Some(Statement::Collinear { a, b, c });
        }
        if let Some(statement) = self.parallel.next() {
            return Some(statement);
        }
        if let Some(statement) = self.perpendicular.next() {
            return Some(statement);
        }
        if let Some(statement) = self.same_length.next() {
            return Some(statement);
        }
        let (a, b, c, d) = self.concyclic.next()?;
        Some(Statement::Concyclic { a, b, c, d })
    }
}
