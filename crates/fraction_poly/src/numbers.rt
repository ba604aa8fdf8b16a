//! Bounds of a numerator and a denominator, by the form of the term.

ghost use Rattle.std.specs.Prelude.{◌≡◌, ◌+◌, ◌*◌, ◌<◌, ◌↔◌, IsTrue, List, Some};
ghost use Rattle.std.specs.Prelude.{length, slice_get};
ghost use Rattle.fraction_poly.specs.Measures.{HasRoom, HaveRoom, capped, capped_number};
ghost use Rattle.fraction_poly.specs.Measures.{numbers_of};
ghost use Rattle.fraction_poly.specs.Inner.Parts.{AreNumbersOf, AreNumbersOfParts};
ghost use Rattle.geo_terms.specs.Stores.{HasChildrenBelow, node_tree};
ghost use Rattle.geo_terms.specs.Trees.{Tree};

use geo_points::TermId;
use geo_poly::{MAX, MAX_DEGREE};
use geo_terms::Node;

/// Bounds of a term's numerator and denominator, by the form of the term, and the charge for making
/// them. A number past `2^128 - 1` is given as `2^128 - 1`.
#[derive(Clone, Copy, Debug, PartialEq, Eq)]
pub struct Numbers {
    /// The weight of the numerator: at least 1 and its norm.
    pub wn: u128,
    /// The weight of the denominator.
    pub wd: u128,
    /// The count of the numerator: at least 1 and its number of monomials.
    pub kn: u128,
    /// The count of the denominator.
    pub kd: u128,
    /// The degree of the numerator: at least its total degree.
    pub gn: u128,
    /// The degree of the denominator.
    pub gd: u128,
    /// The charge.
    pub charge: u128,
}

impl Numbers {
    ghost use Rattle.fraction_poly.specs.Measures.{product_numbers, sum_numbers, turned_numbers};
    ghost use Rattle.fraction_poly.specs.Measures.{variable_numbers};
    ghost use Rattle.geo_terms.specs.Trees.{integer_leaf};

    /// Whether a term with these numbers may be multiplied out: the weights and the degrees are
    /// within the bounds of a polynomial.
    pub fn has_room(&self) -> bool
        ensures bounds { IsTrue result ↔ HaveRoom self.now }
        ensures term { (e : Tree) → self.now ≡ capped (numbers_of e) → (IsTrue result ↔ HasRoom e) }
    {
        let weight = self.wn.max(self.wd);
        let degree = self.gn.max(self.gd);
        weight <= MAX as u128 && degree <= MAX_DEGREE as u128
    }

    /// Those of a whole number.
    pub(crate) fn of_integer(n: i128) -> Numbers
        ensures { result ≡ capped (numbers_of (integer_leaf n)) }
    {
        Numbers {
            wn: n.unsigned_abs().max(1),
            wd: 1,
            kn: 1,
            kd: 1,
            gn: 0,
            gd: 0,
            charge: 0,
        }
    }

    /// Those of a parameter and of a quantity of points.
    pub(crate) fn of_variable() -> Numbers
        ensures { result ≡ variable_numbers }
    {
        Numbers {
            wn: 1,
            wd: 1,
            kn: 1,
            kd: 1,
            gn: 1,
            gd: 0,
            charge: 0,
        }
    }

    /// Those of a sum and of a difference.
    fn sum(self, other: Numbers) -> Numbers
        ensures { result ≡ capped (sum_numbers self other) }
    {
        let kn = crossed(self.kn, other.kd, other.kn, self.kd);
        let kd = self.kd.saturating_mul(other.kd);
        Numbers {
            wn: crossed(self.wn, other.wd, other.wn, self.wd),
            wd: self.wd.saturating_mul(other.wd),
            kn,
            kd,
            gn: self
                .gn
                .saturating_add(other.gd)
                .max(other.gn.saturating_add(self.gd)),
            gd: self.gd.saturating_add(other.gd),
            charge: charged(self.charge, other.charge, kn, kd),
        }
    }

    /// Those of a product.
    fn product(self, other: Numbers) -> Numbers
        ensures { result ≡ capped (product_numbers self other) }
    {
        let kn = self.kn.saturating_mul(other.kn);
        let kd = self.kd.saturating_mul(other.kd);
        Numbers {
            wn: self.wn.saturating_mul(other.wn),
            wd: self.wd.saturating_mul(other.wd),
            kn,
            kd,
            gn: self.gn.saturating_add(other.gn),
            gd: self.gd.saturating_add(other.gd),
            charge: charged(self.charge, other.charge, kn, kd),
        }
    }

    /// Those of 1 divided by the term.
    fn turned(self) -> Numbers
        ensures { result ≡ turned_numbers self }
    {
        Numbers {
            wn: self.wd,
            wd: self.wn,
            kn: self.kd,
            kd: self.kn,
            gn: self.gd,
            gd: self.gn,
            charge: self.charge,
        }
    }
}

/// `a d + b c`.
fn crossed(a: u128, d: u128, b: u128, c: u128) -> u128
    ensures { result ≡ capped_number (a * d + b * c) }
{
    a.saturating_mul(d).saturating_add(b.saturating_mul(c))
}

/// The charges of two parts, and the counts of what is made of them.
fn charged(left: u128, right: u128, kn: u128, kd: u128) -> u128
    ensures { result ≡ capped_number (left + right + kn + kd) }
{
    left.saturating_add(right)
        .saturating_add(kn)
        .saturating_add(kd)
}

/// The numbers of a node over those of its two parts.
pub(crate) fn numbers_over(node: Node, left: Numbers, right: Numbers) -> Numbers
    ensures { (trees : List Tree) → AreNumbersOfParts trees node left right
        → result ≡ capped (numbers_of (node_tree trees node)) }
{
    match node {
        Node::Mul(..) => left.product(right),
        Node::Div(..) => left.product(right.turned()),
        _ => left.sum(right),
    }
}

/// The numbers of a node over those of its parts.
pub(crate) fn node_numbers(parts: &[Numbers], node: Node) -> Numbers
    requires { HasChildrenBelow (length parts.now) node }
    ensures { (trees : List Tree) → AreNumbersOf trees parts.now
        → result ≡ capped (numbers_of (node_tree trees node)) }
{
    match node {
        Node::Int(n) => Numbers::of_integer(n),
        Node::Param(_) | Node::S(..) | Node::P(..) | Node::R(..) => Numbers::of_variable(),
        Node::Neg(e) => part(parts, e),
        Node::Add(e, f) | Node::Sub(e, f) => part(parts, e).sum(part(parts, f)),
        Node::Mul(e, f) => part(parts, e).product(part(parts, f)),
        Node::Div(e, f) => part(parts, e).product(part(parts, f).turned()),
    }
}

/// The numbers of a part.
fn part(parts: &[Numbers], id: TermId) -> Numbers
    requires { id.0 < length parts.now }
    ensures { slice_get parts.now id.0 ≡ Some result }
{
    parts[id.0 as usize]
}
