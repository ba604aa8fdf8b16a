//! What a program states.

ghost use Rattle.std.specs.Prelude.{◌≡◌};
ghost use Rattle.geo_program.specs.Forms.{statement_form};
ghost use Rattle.geo_terms.specs.Stores.{Store};

use geo_points::{PointId, TermId};

/// The statement of a program.
#[derive(Clone, Copy, Debug, PartialEq, Eq, PartialOrd, Ord)]
pub enum Statement {
    /// Both sides have values, and these are equal.
    Equal {
        /// The left side.
        e: TermId,
        /// The right side.
        f: TermId,
    },
    /// A, B and C lie on one line.
    Collinear {
        /// The point A.
        a: PointId,
        /// The point B.
        b: PointId,
        /// The point C.
        c: PointId,
    },
    /// AB is parallel to CD.
    Parallel {
        /// The point A.
        a: PointId,
        /// The point B.
        b: PointId,
        /// The point C.
        c: PointId,
        /// The point D.
        d: PointId,
    },
    /// AB is perpendicular to CD.
    Perpendicular {
        /// The point A.
        a: PointId,
        /// The point B.
        b: PointId,
        /// The point C.
        c: PointId,
        /// The point D.
        d: PointId,
    },
    /// A and B are the same point.
    Identical {
        /// The point A.
        a: PointId,
        /// The point B.
        b: PointId,
    },
    /// M is the middle of A and B.
    Midpoint {
        /// The point M.
        m: PointId,
        /// The point A.
        a: PointId,
        /// The point B.
        b: PointId,
    },
    /// AB and CD have the same length.
    SameLength {
        /// The point A.
        a: PointId,
        /// The point B.
        b: PointId,
        /// The point C.
        c: PointId,
        /// The point D.
        d: PointId,
    },
    /// The ratios AC/CB and AD/BD are defined and equal.
    Harmonic {
        /// The point A.
        a: PointId,
        /// The point B.
        b: PointId,
        /// The point C.
        c: PointId,
        /// The point D.
        d: PointId,
    },
    /// A, B, C and D lie on one circle or line.
    Concyclic {
        /// The point A.
        a: PointId,
        /// The point B.
        b: PointId,
        /// The point C.
        c: PointId,
        /// The point D.
        d: PointId,
    },
}

impl Statement {
    /// The word that begins it.
    pub fn word(self) -> &'static [u8]
        ensures { (nodes : Store) → result.now ≡ (statement_form nodes self).word }
    {
        match self {
            Statement::Equal { .. } => b"equal",
            Statement::Collinear { .. } => b"collinear",
            Statement::Parallel { .. } => b"parallel",
            Statement::Perpendicular { .. } => b"perpendicular",
            Statement::Identical { .. } => b"identical",
            Statement::Midpoint { .. } => b"midpoint",
            Statement::SameLength { .. } => b"same_length",
            Statement::Harmonic { .. } => b"harmonic",
            Statement::Concyclic { .. } => b"concyclic",
        }
    }
}
