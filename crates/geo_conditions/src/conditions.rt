//! The conditions of a program.

use geo_points::{PointId, TermId};
use geo_program::LineId;

/// What must hold for a command or for the statement to mean anything. Points, lines and terms are
/// the program's, so two conditions of a program have one text only where they are equal.
#[derive(Clone, Copy, Debug, PartialEq, Eq, PartialOrd, Ord)]
pub enum Condition {
    /// A and B differ.
    Different {
        /// The point A.
        a: PointId,
        /// The point B.
        b: PointId,
    },
    /// A, B and C lie on no line.
    NotCollinear {
        /// The point A.
        a: PointId,
        /// The point B.
        b: PointId,
        /// The point C.
        c: PointId,
    },
    /// AB and CD are not parallel.
    NotParallel {
        /// The point A.
        a: PointId,
        /// The point B.
        b: PointId,
        /// The point C.
        c: PointId,
        /// The point D.
        d: PointId,
    },
    /// The lines have directions that are not parallel.
    Crossing {
        /// The first line.
        a: LineId,
        /// The second line.
        b: LineId,
    },
    /// The term of the program's store has a value, and it is not 0.
    Nonzero(TermId),
}

/// A condition and the line of the canonical program that gives it first, counted from 1.
#[derive(Clone, Copy, Debug, PartialEq, Eq)]
pub struct ListedCondition {
    /// The condition.
    pub condition: Condition,
    /// The line.
    pub line: u64,
}
