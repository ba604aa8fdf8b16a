//! Drafts that are a sign times a variable, or a number that is a sign: no ring is made for these.

ghost use Rattle.std.specs.Prelude.{◌≡◌, ◌≤◌, ◌<◌, ◌+◌, ◌*◌, ◌^◌, IfOk, IfSome, IsTrue, max};
ghost use Rattle.std.specs.Prelude.{unsigned_abs};
ghost use Rattle.fraction_poly.specs.Inner.Drafts.{AllFit, HasSign, IsBoundedNumber, by_number};
ghost use Rattle.fraction_poly.specs.Inner.Drafts.{combined_piece, drafted_piece};
ghost use Rattle.fraction_poly.specs.Inner.Simple.{IsCanonFor, IsSimpleFor, simple_piece};
ghost use Rattle.fraction_poly.specs.Forms.{PieceFits, piece_product, variable_piece};
ghost use Rattle.fraction_poly.specs.MultipliedOut.{canon_polynomial};
ghost use Rattle.geo_poly.specs.Polynomials.{constant_of, difference_of, product_of, sum_of};
ghost use Rattle.geo_poly.specs.Replace.{IsBounded};

use crate::drafts::Draft;
use crate::fractions::{is_unit, signed_poly};
use crate::operations::Operation;
use crate::step_numbers::StepNumber;
use geo_points::NoMemory;
use geo_poly::{Canon, Piece, Poly, Var, canon_p, canon_r, canon_s};
use std::alloc::Global;

/// A sign times a variable, or a number that is a sign, with the numbers of a piece.
#[derive(Clone, Copy)]
pub(crate) struct Simple {
    /// The sign, and the variable where there is one.
    pub canon: Canon,
    /// At least 1 and at least the norm.
    pub weight: u128,
    /// At least the number of monomials, and at most the weight.
    pub count: u128,
    /// At least the degree.
    pub degree: u128,
}

impl Draft {
    /// What the draft multiplies out to, where it is made of simple parts with no sum but with 0
    /// and no product but with 0 or 1.
    pub(crate) fn simple(&self, first: &StepNumber, second: &StepNumber) -> Option<Simple>
        requires first { IsBoundedNumber first.now }
        requires second { IsBoundedNumber second.now }
        requires fits { AllFit (by_number first.now second.now) self.now }
        ensures { IfSome result
            (IsSimpleFor (drafted_piece (by_number first.now second.now) self.now)) }
    {
        match self {
            Draft::Area(a, b, c) => Some(quantity(canon_s(*a, *b, *c))),
            Draft::Pythagoras(a, b, c) => Some(quantity(canon_p(*a, *b, *c))),
            Draft::Ratio(a, b, c, d) => Some(quantity(canon_r(*a, *b, *c, *d))),
            Draft::Numerator(k) => number(&k.of(first, second).num),
            Draft::Denominator(k) => number(&k.of(first, second).den),
            Draft::Combined(both) => {
                let left = both.left.simple(first, second)?;
                let right = both.right.simple(first, second)?;
                combined(both.operation, left, right)
            }
            _ => None,
        }
    }
}

/// A quantity of points in its sorted form.
fn quantity(canon: Canon) -> Simple
    requires { HasSign canon }
    ensures { IsSimpleFor (variable_piece (canon_polynomial canon)) result }
{
    Simple {
        canon,
        weight: 1,
        count: 1,
        degree: 1,
    }
}

/// The piece, where it is 0 or 1.
fn number(piece: &Piece) -> Option<Simple>
    ensures { IfSome result (IsSimpleFor piece.now) }
{
    let sign = small_number(&piece.poly)?;
    Some(Simple {
        canon: Canon { sign, var: None },
        weight: piece.weight,
        count: piece.count,
        degree: piece.degree,
    })
}

/// The number that the polynomial is, where that is 0 or 1.
fn small_number(poly: &Poly) -> Option<i128>
    ensures sign { IfSome result (λ n. unsigned_abs n ≤ 1) }
    ensures number { IfSome result (λ n. constant_of n ≡ poly.now) }
{
    if poly.is_zero() {
        return Some(0);
    }
    if is_unit(poly) {
        return Some(1);
    }
    None
}

/// Both, put together, where that is simple.
fn combined(operation: Operation, left: Simple, right: Simple) -> Option<Simple>
    requires left_sign { HasSign left.canon }
    requires right_sign { HasSign right.canon }
    requires left { IsBounded (simple_piece left) }
    requires right { IsBounded (simple_piece right) }
    requires fits { PieceFits (combined_piece operation (simple_piece left) (simple_piece right)) }
    ensures { IfSome result
        (IsSimpleFor (combined_piece operation (simple_piece left) (simple_piece right))) }
{
    match operation {
        Operation::Sum => Some(added(sum(left.canon, right.canon)?, left, right)),
        Operation::Difference => Some(added(difference(left.canon, right.canon)?, left, right)),
        Operation::Product => Some(multiplied(product(left.canon, right.canon)?, left, right)),
    }
}

/// With the numbers of a sum.
fn added(canon: Canon, left: Simple, right: Simple) -> Simple
    requires left { IsBounded (simple_piece left) }
    requires right { IsBounded (simple_piece right) }
    requires fits { left.weight + right.weight < 2 ^ 127 }
    ensures canon { result.canon ≡ canon }
    ensures weight { result.weight ≡ left.weight + right.weight }
    ensures count { result.count ≡ left.count + right.count }
    ensures degree { result.degree ≡ max left.degree right.degree }
{
    Simple {
        canon,
        weight: left.weight + right.weight,
        count: left.count + right.count,
        degree: left.degree.max(right.degree),
    }
}

/// With the numbers of a product.
fn multiplied(canon: Canon, left: Simple, right: Simple) -> Simple
    requires left { IsBounded (simple_piece left) }
    requires right { IsBounded (simple_piece right) }
    requires fits { PieceFits (piece_product (simple_piece left) (simple_piece right)) }
    ensures canon { result.canon ≡ canon }
    ensures weight { result.weight ≡ left.weight * right.weight }
    ensures count { result.count ≡ left.count * right.count }
    ensures degree { result.degree ≡ left.degree + right.degree }
{
    Simple {
        canon,
        weight: left.weight * right.weight,
        count: left.count * right.count,
        degree: left.degree + right.degree,
    }
}

/// The sum, where one of both is 0.
fn sum(left: Canon, right: Canon) -> Option<Canon>
    requires left { HasSign left }
    requires right { HasSign right }
    ensures { IfSome result
        (IsCanonFor (sum_of (canon_polynomial left) (canon_polynomial right))) }
{
    if is_number(left, 0) {
        return Some(right);
    }
    if is_number(right, 0) {
        return Some(left);
    }
    None
}

/// The difference, where the second is 0.
fn difference(left: Canon, right: Canon) -> Option<Canon>
    requires left { HasSign left }
    ensures { IfSome result
        (IsCanonFor (difference_of (canon_polynomial left) (canon_polynomial right))) }
{
    if is_number(right, 0) {
        return Some(left);
    }
    None
}

/// The product, where one of both is 0 or 1.
fn product(left: Canon, right: Canon) -> Option<Canon>
    requires left { HasSign left }
    requires right { HasSign right }
    ensures { IfSome result
        (IsCanonFor (product_of (canon_polynomial left) (canon_polynomial right))) }
{
    if is_number(left, 0) {
        return Some(left);
    }
    if is_number(left, 1) {
        return Some(right);
    }
    if is_number(right, 0) {
        return Some(right);
    }
    if is_number(right, 1) {
        return Some(left);
    }
    None
}

/// Whether it is this number, with no variable.
fn is_number(canon: Canon, n: i128) -> bool
    ensures { IsTrue result → canon_polynomial canon ≡ constant_of n }
{
    match canon.var {
        None => canon.sign == n,
        Some(_) => false,
    }
}

impl Simple {
    /// The piece that it is.
    pub(crate) fn into_piece(self, alloc: Global) -> Result<Piece, NoMemory>
        requires { HasSign self.canon }
        ensures { IfOk result (λ f. f ≡ simple_piece self) }
    {
        Ok(Piece {
            poly: polynomial(alloc, self.canon)?,
            weight: self.weight,
            count: self.count,
            degree: self.degree,
        })
    }
}

/// The polynomial that a sorted form is.
fn polynomial(alloc: Global, canon: Canon) -> Result<Poly, NoMemory>
    requires { HasSign canon }
    ensures { IfOk result (λ p. p ≡ canon_polynomial canon) }
{
    match canon.var {
        None => Poly::constant(alloc, canon.sign),
        Some(v) => signed_poly(alloc, v, canon.sign < 0),
    }
}
