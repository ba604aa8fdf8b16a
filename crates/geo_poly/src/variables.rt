//! The variables of polynomials, and their order.

ghost use Rattle.std.specs.Prelude.{◌≡◌};
ghost use Rattle.std.proofs.Common.{rules};
ghost use Rattle.std.specs.Cmp.{partial_order_from_own_ties};
ghost use Rattle.std.specs.Cmp.Rules.{comparing};
ghost use Rattle.std.specs.Ordering.{as_partial_cmp, eq_by_cmp};

use geo_points::{ParamId, PointId};
use std::cmp::Ordering;
use std::marker::Model;

/// A quantity of a figure, by the numbers of its points.
///
/// `Less` is what stands before: ratios, then areas, then Pythagoras differences, each by its
/// points; then the coordinates, point by point; then the parameters.
#[derive(Clone, Copy, Debug)]
pub enum Var {
    /// The ratio of the parallel segments AB and CD.
    R(PointId, PointId, PointId, PointId),
    /// The signed area of the triangle ABC.
    S(PointId, PointId, PointId),
    /// The Pythagoras difference AB² + BC² − AC².
    P(PointId, PointId, PointId),
    /// The first coordinate of a point.
    X(PointId),
    /// The second coordinate of a point.
    Y(PointId),
    /// A parameter.
    T(ParamId),
}

impl Var {
    ghost use Rattle.std.specs.Prelude.{Some, slice_get};
    ghost use Rattle.geo_poly.specs.Variables.{rank, var_cmp};

    /// The kind, and then the numbers: the coordinates of a point stand together.
    fn rank(self) -> [u32; 5]
        ensures { result ≡ rank self }
    {
        match self {
            Var::R(a, b, c, d) => [0, a.0, b.0, c.0, d.0],
            Var::S(a, b, c) => [1, a.0, b.0, c.0, 0],
            Var::P(a, b, c) => [2, a.0, b.0, c.0, 0],
            Var::X(a) => [3, a.0, 0, 0, 0],
            Var::Y(a) => [3, a.0, 1, 0, 0],
            Var::T(t) => [4, t.0, 0, 0, 0],
        }
    }

    /// The kind, which most variables of different kinds are told by.
    fn kind(&self) -> u32
        ensures { slice_get (rank self.now) 0 ≡ Some result }
    {
        match self {
            Var::R(_, _, _, _) => 0,
            Var::S(_, _, _) => 1,
            Var::P(_, _, _) => 2,
            Var::X(_) | Var::Y(_) => 3,
            Var::T(_) => 4,
        }
    }

    /// The order of variables by their ranks.
    fn cmp_ranks(&self, other: &Var) -> Ordering
        ensures { result ≡ var_cmp self.now other.now }
    {
        match self.kind().cmp(&other.kind()) {
            Ordering::Equal => self.rank().cmp(&other.rank()),
            order => order,
        }
    }
}

impl PartialEq for Var {
    ghost use Rattle.geo_poly.specs.Variables.{var_cmp};

    ghost eq = { eq_by_cmp var_cmp };

    ghost laws = { Prim.search (comparing, rules) };

    fn eq(&self, other: &Var) -> bool {
        match (self, other) {
            (Var::R(a, b, c, d), Var::R(e, f, g, h)) => a == e && b == f && c == g && d == h,
            (Var::S(a, b, c), Var::S(d, e, f)) => a == d && b == e && c == f,
            (Var::P(a, b, c), Var::P(d, e, f)) => a == d && b == e && c == f,
            (Var::X(a), Var::X(b)) => a == b,
            (Var::Y(a), Var::Y(b)) => a == b,
            (Var::T(s), Var::T(t)) => s == t,
            _ => self.kind() == other.kind() && self.rank() == other.rank(),
        }
    }
}

impl Eq for Var {
    ghost laws = { Prim.search (comparing, rules) };
}

impl Ord for Var {
    ghost use Rattle.geo_poly.specs.Variables.{var_cmp};

    ghost cmp = { var_cmp };

    ghost total = { Prim.search (comparing, rules) };

    ghost matches_partial_cmp = { Prim.search (comparing, rules) };

    ghost matches_eq = { Prim.search (comparing, rules) };

    fn cmp(&self, other: &Var) -> Ordering {
        match (self, other) {
            (Var::R(a, b, c, d), Var::R(e, f, g, h)) => (*a, *b, *c, *d).cmp(&(*e, *f, *g, *h)),
            (Var::S(a, b, c), Var::S(d, e, f)) => (*a, *b, *c).cmp(&(*d, *e, *f)),
            (Var::P(a, b, c), Var::P(d, e, f)) => (*a, *b, *c).cmp(&(*d, *e, *f)),
            (Var::X(a), Var::X(b)) => a.cmp(b),
            (Var::X(a), Var::Y(b)) => a.cmp(b).then(Ordering::Less),
            (Var::Y(a), Var::X(b)) => a.cmp(b).then(Ordering::Greater),
            (Var::Y(a), Var::Y(b)) => a.cmp(b),
            (Var::T(s), Var::T(t)) => s.cmp(t),
            _ => self.cmp_ranks(other),
        }
    }
}

impl PartialOrd for Var {
    ghost use Rattle.geo_poly.specs.Variables.{var_cmp};

    ghost partial_cmp = { as_partial_cmp var_cmp };

    ghost laws = { partial_order_from_own_ties
        (Prim.search (comparing, rules)) (Prim.search (comparing, rules)) };

    fn partial_cmp(&self, other: &Var) -> Option<Ordering> {
        Some(self.cmp(other))
    }
}

/// Variables, in order.
#[derive(Drop)]
pub struct Vars {
    /// The variables.
    pub items: Vec<Var>,
}

impl Model for Vars {
    ghost use Rattle.std.specs.Prelude.{List};
    ghost use Rattle.geo_poly.specs.declared.variables.Var.{Var};

    ghost Value = { List Var };

    ghost view = { λ vars. vars.items.items };
}

impl Vars {
    /// The variables.
    pub fn as_slice(&self) -> &[Var]
        ensures { result.now ≡ self.now }
    {
        self.items.as_slice()
    }
}
