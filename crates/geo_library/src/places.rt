//! Where the cited program stands among the steps of the citing one.

ghost use Rattle.std.specs.Prelude.{◌≡◌, ◌<◌, length};
ghost use Rattle.geo_conditions.specs.Inner.ItemTerms.{placed};
ghost use Rattle.geo_lowering.specs.Inner.Renaming.{item_at};
ghost use Rattle.geo_library.specs.Inner.Goals.{IsGoalWithin, IsNumberWithin, placed_goal};
ghost use Rattle.geo_library.specs.Inner.Goals.{placed_number};

use crate::goals::{Goal, Number};
use geo_conditions::point_at;
use geo_points::{ParamId, PointId, TermId};

/// Where the points and the terms of the cited program stand among the steps of the citing one.
#[derive(Clone, Copy, Drop)]
pub struct Places<'a> {
    /// The points.
    pub points: &'a [PointId],
    /// The parameters.
    pub params: &'a [ParamId],
    /// The terms of the cited program's store, in order, over these points and parameters.
    pub terms: &'a [TermId],
}

impl<'a> Places<'a> {
    // The place of a point.
    fn point(&self, a: PointId) -> PointId
        ensures { result ≡ placed self.now.points.now a }
    {
        point_at(self.points, a)
    }

    // The place of a term.
    fn term(&self, e: TermId) -> TermId
        requires { e.0 < length self.now.terms.now }
        ensures { result ≡ item_at self.now.terms.now e }
    {
        self.terms[e.0 as usize]
    }

    // The place of a number.
    fn number(&self, r: Number) -> Number
        requires { IsNumberWithin (length self.now.terms.now) r }
        ensures { result ≡ placed_number self.now.terms.now r }
    {
        match r {
            Number::One => Number::One,
            Number::Stored(e) => Number::Stored(self.term(e)),
        }
    }

    /// The goal at the places.
    pub fn goal(&self, goal: Goal) -> Goal
        requires { IsGoalWithin (length self.now.terms.now) goal }
        ensures { result ≡ placed_goal self.now.points.now self.now.terms.now goal }
    {
        match goal {
            Goal::OnLine { a, b, x } => Goal::OnLine {
                a: self.point(a),
                b: self.point(b),
                x: self.point(x),
            },
            Goal::Upright { x, y, a, b } => Goal::Upright {
                x: self.point(x),
                y: self.point(y),
                a: self.point(a),
                b: self.point(b),
            },
            Goal::Along { x, w, u, v, r } => Goal::Along {
                x: self.point(x),
                w: self.point(w),
                u: self.point(u),
                v: self.point(v),
                r: self.number(r),
            },
            Goal::Turned { x, u, v, r } => Goal::Turned {
                x: self.point(x),
                u: self.point(u),
                v: self.point(v),
                r: self.term(r),
            },
            Goal::Midpoint { m, a, b } => Goal::Midpoint {
                m: self.point(m),
                a: self.point(a),
                b: self.point(b),
            },
            Goal::Halfway { x, a, p, q } => Goal::Halfway {
                x: self.point(x),
                a: self.point(a),
                p: self.point(p),
                q: self.point(q),
            },
            Goal::Bisector { x, a, b } => Goal::Bisector {
                x: self.point(x),
                a: self.point(a),
                b: self.point(b),
            },
            Goal::Circle { x, o, a } => Goal::Circle {
                x: self.point(x),
                o: self.point(o),
                a: self.point(a),
            },
            Goal::Centroid { x, a, b, c } => Goal::Centroid {
                x: self.point(x),
                a: self.point(a),
                b: self.point(b),
                c: self.point(c),
            },
            Goal::Inverse { x, p, o, a } => Goal::Inverse {
                x: self.point(x),
                p: self.point(p),
                o: self.point(o),
                a: self.point(a),
            },
            Goal::Weights { x, a, b, c, r, s } => Goal::Weights {
                x: self.point(x),
                a: self.point(a),
                b: self.point(b),
                c: self.point(c),
                r: self.term(r),
                s: self.term(s),
            },
        }
    }
}
