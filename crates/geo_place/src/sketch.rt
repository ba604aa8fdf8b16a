//! The points that are placed so far, and what is reckoned of them.

ghost use Rattle.std.specs.Prelude.{◌≡◌, ◌<◌, ◌^◌, pos, ℕ, length, unsigned_abs};
ghost use Rattle.ring_laws.specs.Fraction.{whole};
ghost use Rattle.frac_laws.specs.Numbers.{IsNumber};
ghost use Rattle.geo_points.specs.Points.{Point as Triple, x_coordinate};
ghost use Rattle.geo_terms.specs.Stores.{tree_of};
ghost use Rattle.geo_lowering.specs.StepForms.{step_form, free};
ghost use Rattle.geo_place.specs.Formulas.{reckoned, step_spot};
ghost use Rattle.geo_place.specs.Inner.{AreResults, HasNumber, IsPosition, placement_of};
ghost use Rattle.geo_place.specs.Reckonings.{HasResult};

use crate::positions::{Position, Reckoned, whole_number};
use crate::quantities::{area, pythagoras, ratio};
use crate::results::{difference_of, opposite_of, product_of, quotient_of, sum_of};
use crate::spots::{aside, crossing, foot, onwards, there, weighted};
use frac_laws::{Frac, FracTooLarge};
use geo_points::{ParamId, PointId, TermId};
use geo_terms::{Node, Step, Terms};

/// The first points of a lowered program, hidden ones among them, and its numbers.
#[derive(Drop)]
pub struct Sketch {
    /// The points.
    pub points: Vec<Position>,
    /// How many of them are free.
    pub free: usize,
    /// The numbers.
    pub numbers: Vec<Frac>,
}

/// The point (0, 0).
fn origin() -> Position
    ensures x { IsNumber result.x (whole (pos 0)) }
    ensures y { IsNumber result.y (whole (pos 0)) }
{
    Position {
        x: whole_number(0),
        y: whole_number(0),
    }
}

impl Sketch {
    /// A point; past the end the point (0, 0).
    fn point(&self, a: PointId) -> Position
        ensures { IsPosition result ((placement_of self.now).point a.0) }
    {
        match self.points.get(a.0 as usize) {
            Some(position) => *position,
            None => origin(),
        }
    }

    /// A number; past the end 0.
    fn number(&self, t: ParamId) -> Frac
        ensures { IsNumber result ((placement_of self.now).number t.0) }
    {
        match self.numbers.get(t.0 as usize) {
            Some(number) => *number,
            None => whole_number(0),
        }
    }

    /// What is reckoned of a term. The calls stand at most as deep as braces do.
    pub fn term(&self, terms: &Terms, e: TermId) -> Result<Frac, FracTooLarge>
        requires { e.0 < length terms.now }
        ensures { HasResult (reckoned (placement_of self.now) (tree_of terms.now e)) result }
    {
        // The parts of a node stand below it.
        prove!(e.0 < terms.len());
        match terms.node(e) {
            Node::Int(n) => Ok(whole_number(n)),
            Node::Param(t) => Ok(self.number(t)),
            Node::S(a, b, c) => area(&self.point(a), &self.point(b), &self.point(c)),
            Node::P(a, b, c) => pythagoras(&self.point(a), &self.point(b), &self.point(c)),
            Node::R(a, b, c, d) => {
                let (a, b, c, d) = (self.point(a), self.point(b), self.point(c), self.point(d));
                ratio(&a, &b, &c, &d)
            }
            Node::Neg(f) => opposite_of(self.term(terms, f)),
            Node::Add(f, g) => sum_of(self.term(terms, f), self.term(terms, g)),
            Node::Sub(f, g) => difference_of(self.term(terms, f), self.term(terms, g)),
            Node::Mul(f, g) => product_of(self.term(terms, f), self.term(terms, g)),
            Node::Div(f, g) => quotient_of(self.term(terms, f), self.term(terms, g)),
        }
    }

    /// What is reckoned of the point that a step makes. A free point is where it is.
    pub fn step(&self, terms: &Terms, step: Step, y: PointId) -> Reckoned
        requires { HasNumber terms.now step }
        ensures { AreResults result
            (step_spot (placement_of self.now) y.0 (step_form terms.now step)) }
    {
        match step {
            Step::Point => there(&self.point(y)),
            Step::Inter { u, v, p, q } => {
                let (u, v, p, q) = (self.point(u), self.point(v), self.point(p), self.point(q));
                crossing(&u, &v, &p, &q)
            }
            Step::Foot { p, u, v } => foot(&self.point(p), &self.point(u), &self.point(v)),
            Step::Pratio { w, u, v, r } => {
                let number = self.term(terms, r);
                onwards(
                    there(&self.point(w)),
                    number,
                    &self.point(u),
                    &self.point(v),
                )
            }
            Step::Tratio { u, v, r } => {
                let number = self.term(terms, r);
                let (u, v) = (self.point(u), self.point(v));
                aside(there(&u), number, &u, &v)
            }
            Step::Weights { o, u, v, r, s } => {
                let (r, s) = (self.term(terms, r), self.term(terms, s));
                weighted(&self.point(o), &self.point(u), &self.point(v), r, s)
            }
        }
    }
}
