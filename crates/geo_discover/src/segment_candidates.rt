//! Candidates of two segments: parallel, perpendicular, of the same length.

ghost use Rattle.std.specs.Iterator.{YieldsFirst};
ghost use Rattle.std.specs.Prelude.{◌≡◌, []};
ghost use Rattle.std.specs.List.{cons_option, flat_map};
ghost use Rattle.geo_discover.specs.Candidates.{segments_over, share_point};
ghost use Rattle.geo_discover.specs.Inner.Walks.{points_left, related_left, segment_candidates};

use crate::point_range::PointRange;
use crate::segments::{Segments, Two};
use geo_program::Statement;

/// What two segments may be to each other.
#[derive(Clone, Copy)]
pub(crate) enum Kind {
    /// They are parallel; of these no two share a point.
    Parallel,
    /// They are perpendicular.
    Perpendicular,
    /// They have the same length.
    SameLength,
}

/// The candidates of a kind that are left.
#[derive(Clone, Copy)]
pub(crate) struct SegmentCandidates {
    /// Their kind.
    pub kind: Kind,
    /// The segments of which they may be made.
    pub segments: Segments,
}

impl SegmentCandidates {
    /// All candidates of this kind with segments between these points.
    pub fn of(kind: Kind, points: PointRange) -> SegmentCandidates
        ensures { related_left result
            ≡ flat_map (segment_candidates kind) (segments_over (points_left points)) }
    {
        SegmentCandidates {
            kind,
            segments: Segments::of(points),
        }
    }

    /// The next candidate.
    pub fn next(&mut self) -> Option<Statement>
        ensures { YieldsFirst related_left self.old result self.new }
    {
        while let Some(two) = self.segments.next() {
            if let Some(statement) = self.kind.candidate(two) {
                return Some(statement);
            }
        }
        None
    }
}

impl Kind {
    /// The candidate of this kind with these segments, if they make one.
    fn candidate(self, segments: Two) -> Option<Statement>
        ensures { cons_option result [] ≡ segment_candidates self segments }
    {
        let ((a, b), (c, d)) = segments;
        match self {
            Kind::Parallel => {
                if shares_point(segments) {
                    None
                } else {
                    Some(Statement::Parallel { a, b, c, d })
                }
            }
            Kind::Perpendicular => Some(Statement::Perpendicular { a, b, c, d }),
            Kind::SameLength => Some(Statement::SameLength { a, b, c, d }),
        }
    }
}

/// Whether both segments have a point in common.
fn shares_point(segments: Two) -> bool
    ensures { result ≡ share_point segments }
{
    let ((a, b), (c, d)) = segments;
    a.0 == c.0 || a.0 == d.0 || b.0 == c.0 || b.0 == d.0
}
