//! What the terms of conditions and goals are made of, over the points of the lowered form.

ghost use Rattle.std.specs.Prelude.{◌≡◌, length};
ghost use Rattle.geo_lowering.specs.Lowering.{pair_numbers};
ghost use Rattle.geo_conditions.specs.Inner.ItemTerms.{AreSidesWithin, IsTermWithin};
ghost use Rattle.geo_conditions.specs.Inner.ItemTerms.{condition_item_term, goal_item_term};
ghost use Rattle.geo_conditions.specs.Inner.ItemTerms.{placed_pair};

use crate::conditions::Condition;
use crate::renaming::point_at;
use geo_points::{ParamId, PointId, TermId};
use geo_program::{LineId, Statement};

/// The term of a condition or of a goal. Points and terms are those of the lowered form.
#[derive(Clone, Copy, Debug, PartialEq, Eq)]
pub enum ItemTerm {
    /// `P_ABA`.
    Square {
        /// The point A.
        a: PointId,
        /// The point B.
        b: PointId,
    },
    /// `S_ABC`.
    Area {
        /// The point A.
        a: PointId,
        /// The point B.
        b: PointId,
        /// The point C.
        c: PointId,
    },
    /// `S_ACD - S_BCD`.
    Parallel {
        /// The point A.
        a: PointId,
        /// The point B.
        b: PointId,
        /// The point C.
        c: PointId,
        /// The point D.
        d: PointId,
    },
    /// `P_ACD - P_BCD`.
    Perpendicular {
        /// The point A.
        a: PointId,
        /// The point B.
        b: PointId,
        /// The point C.
        c: PointId,
        /// The point D.
        d: PointId,
    },
    /// `2 P_AMA + 2 P_BMB - P_ABA`.
    Midpoint {
        /// The point M.
        m: PointId,
        /// The point A.
        a: PointId,
        /// The point B.
        b: PointId,
    },
    /// `P_ABA - P_CDC`.
    SameLength {
        /// The point A.
        a: PointId,
        /// The point B.
        b: PointId,
        /// The point C.
        c: PointId,
        /// The point D.
        d: PointId,
    },
    /// `AC/CB - AD/BD`.
    Harmonic {
        /// The point A.
        a: PointId,
        /// The point B.
        b: PointId,
        /// The point C.
        c: PointId,
        /// The point D.
        d: PointId,
    },
    /// `S_CAD P_CBD - P_CAD S_CBD`.
    Concyclic {
        /// The point A.
        a: PointId,
        /// The point B.
        b: PointId,
        /// The point C.
        c: PointId,
        /// The point D.
        d: PointId,
    },
    /// A term that stands in the store.
    Stored(TermId),
    /// A stored term less another.
    Difference {
        /// The first term.
        e: TermId,
        /// The second term.
        f: TermId,
    },
}

/// Where what the program names stands in the lowered form.
#[derive(Clone, Copy, Drop)]
pub struct Places<'a> {
    /// The named points.
    pub points: &'a [PointId],
    /// The two points of each line.
    pub lines: &'a [(PointId, PointId)],
    /// The parameters.
    pub params: &'a [ParamId],
    /// The terms of the program's store, in order, over these places.
    pub terms: &'a [TermId],
}

// The two points that stand for a line; past the end twice the point 0.
fn pair_at(lines: &[(PointId, PointId)], a: LineId) -> (PointId, PointId)
    ensures { pair_numbers result ≡ placed_pair lines.now a }
{
    match lines.get(a.0 as usize) {
        Some(pair) => *pair,
        None => (PointId(0), PointId(0)),
    }
}

// The term for two lines that cross.
fn crossing_term(first: (PointId, PointId), second: (PointId, PointId)) -> ItemTerm
    ensures { result ≡ ItemTerm.Parallel first.0 first.1 second.0 second.1 }
{
    let (a, b) = first;
    let (c, d) = second;
    ItemTerm::Parallel { a, b, c, d }
}

/// The term of a condition of the program, which is not 0 where the condition holds.
pub fn condition_term(
    points: &[PointId],
    lines: &[(PointId, PointId)],
    terms: &[TermId],
    condition: Condition,
) -> ItemTerm
    requires { IsTermWithin (length terms.now) condition }
    ensures { result ≡ condition_item_term points.now lines.now terms.now condition }
{
    match condition {
        Condition::Different { a, b } => ItemTerm::Square {
            a: point_at(points, a),
            b: point_at(points, b),
        },
        Condition::NotCollinear { a, b, c } => ItemTerm::Area {
            a: point_at(points, a),
            b: point_at(points, b),
            c: point_at(points, c),
        },
        Condition::NotParallel { a, b, c, d } => ItemTerm::Parallel {
            a: point_at(points, a),
            b: point_at(points, b),
            c: point_at(points, c),
            d: point_at(points, d),
        },
        Condition::Crossing { a, b } => crossing_term(pair_at(lines, a), pair_at(lines, b)),
        Condition::Nonzero(e) => ItemTerm::Stored(terms[e.0 as usize]),
    }
}

/// The term of a goal of the program, which is 0 where the goal holds.
pub fn goal_term(points: &[PointId], terms: &[TermId], goal: Statement) -> ItemTerm
    requires { AreSidesWithin (length terms.now) goal }
    ensures { result ≡ goal_item_term points.now terms.now goal }
{
    match goal {
        Statement::Equal { e, f } => ItemTerm::Difference {
            e: terms[e.0 as usize],
            f: terms[f.0 as usize],
        },
        Statement::Collinear { a, b, c } => ItemTerm::Area {
            a: point_at(points, a),
            b: point_at(points, b),
            c: point_at(points, c),
        },
        Statement::Parallel { a, b, c, d } => ItemTerm::Parallel {
            a: point_at(points, a),
            b: point_at(points, b),
            c: point_at(points, c),
            d: point_at(points, d),
        },
        Statement::Perpendicular { a, b, c, d } => ItemTerm::Perpendicular {
            a: point_at(points, a),
            b: point_at(points, b),
            c: point_at(points, c),
            d: point_at(points, d),
        },
        Statement::Identical { a, b } => ItemTerm::Square {
            a: point_at(points, a),
            b: point_at(points, b),
        },
        Statement::Midpoint { m, a, b } => ItemTerm::Midpoint {
            m: point_at(points, m),
            a: point_at(points, a),
            b: point_at(points, b),
        },
        Statement::SameLength { a, b, c, d } => ItemTerm::SameLength {
            a: point_at(points, a),
            b: point_at(points, b),
            c: point_at(points, c),
            d: point_at(points, d),
        },
        Statement::Harmonic { a, b, c, d } => ItemTerm::Harmonic {
            a: point_at(points, a),
            b: point_at(points, b),
            c: point_at(points, c),
            d: point_at(points, d),
        },
        Statement::Concyclic { a, b, c, d } => ItemTerm::Concyclic {
            a: point_at(points, a),
            b: point_at(points, b),
            c: point_at(points, c),
            d: point_at(points, d),
        },
    }
}
