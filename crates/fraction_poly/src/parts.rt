//! Polynomials of a ring with the numbers that their form tells: pieces, while one is made of many.

ghost use Rattle.std.specs.Prelude.{◌≡◌, ◌+◌, ◌*◌, ◌^◌, ◌<◌, ◌≤◌, Contains, IfOk, pos};
ghost use Rattle.fraction_poly.specs.Forms.{PieceFits, integer_piece, piece_difference};
ghost use Rattle.fraction_poly.specs.Forms.{piece_opposite, piece_product, piece_sum};
ghost use Rattle.fraction_poly.specs.Forms.{variable_piece};
ghost use Rattle.fraction_poly.specs.Inner.Drafts.{HasSign, IsPartFor, combined_piece, piece_in};
ghost use Rattle.fraction_poly.specs.MultipliedOut.{canon_polynomial, variable_polynomial};
ghost use Rattle.geo_poly.specs.PolynomialVariables.{AllVariables};
ghost use Rattle.geo_poly.specs.Replace.{IsBounded};
ghost use Rattle.geo_poly.specs.Rings.{Grows, IsElement, IsElementFor};

use crate::operations::Operation;
use geo_points::NoMemory;
use geo_poly::{Canon, Element, Piece, Ring, Var};
use std::alloc::Global;

/// A polynomial of a ring, with the numbers of a piece.
#[derive(Drop)]
pub(crate) struct Part {
    /// The polynomial.
    pub element: Element,
    /// At least 1 and at least the norm.
    pub weight: u128,
    /// At least the number of monomials, and at most the weight.
    pub count: u128,
    /// At least the degree.
    pub degree: u128,
}

/// A whole number.
pub(crate) fn integer(alloc: Global, ring: &Ring, n: u32) -> Result<Part, NoMemory>
    ensures { IfOk result (IsPartFor ring.now (integer_piece n)) }
{
    Ok(Part {
        element: ring.constant(alloc, i128::from(n))?,
        weight: u128::from(n).max(1),
        count: 1,
        degree: 0,
    })
}

/// A coordinate of a point.
pub(crate) fn variable(alloc: Global, ring: &mut Ring, v: Var) -> Result<Part, NoMemory>
    requires known { Contains ring.old.vars v }
    ensures part { IfOk result
        (IsPartFor ring.new (variable_piece (variable_polynomial (pos 1) v))) }
    ensures grows { Grows ring.old ring.new }
{
    Ok(Part {
        element: ring.multiple(alloc, 1, v)?,
        weight: 1,
        count: 1,
        degree: 1,
    })
}

/// A quantity of points in its sorted form.
pub(crate) fn quantity(alloc: Global, ring: &mut Ring, canon: Canon) -> Result<Part, NoMemory>
    requires sign { HasSign canon }
    requires known { AllVariables (Contains ring.old.vars) (canon_polynomial canon) }
    ensures part { IfOk result (IsPartFor ring.new (variable_piece (canon_polynomial canon))) }
    ensures grows { Grows ring.old ring.new }
{
    Ok(Part {
        element: canonical(alloc, ring, canon)?,
        weight: 1,
        count: 1,
        degree: 1,
    })
}

/// A quantity of points in its sorted form, as an element.
pub(crate) fn canonical(alloc: Global, ring: &mut Ring, canon: Canon) -> Result<Element, NoMemory>
    requires sign { HasSign canon }
    requires known { AllVariables (Contains ring.old.vars) (canon_polynomial canon) }
    ensures element { IfOk result (IsElementFor ring.new (canon_polynomial canon)) }
    ensures grows { Grows ring.old ring.new }
{
    match canon.var {
        None => ring.constant(alloc, canon.sign),
        Some(v) => ring.multiple(alloc, canon.sign, v),
    }
}

/// The same piece.
pub(crate) fn copied_part(alloc: Global, ring: &mut Ring, piece: &Piece) -> Result<Part, NoMemory>
    requires known { AllVariables (Contains ring.old.vars) piece.now.poly }
    ensures part { IfOk result (IsPartFor ring.new piece.now) }
    ensures grows { Grows ring.old ring.new }
{
    Ok(Part {
        element: ring.element(alloc, &piece.poly)?,
        weight: piece.weight,
        count: piece.count,
        degree: piece.degree,
    })
}

/// Both, put together.
pub(crate) fn combined(
    alloc: Global,
    ring: &mut Ring,
    operation: Operation,
    left: &Part,
    right: &Part,
) -> Result<Part, NoMemory>
    requires left_element { IsElement ring.old left.now.element }
    requires right_element { IsElement ring.old right.now.element }
    requires left { IsBounded (piece_in ring.old left.now) }
    requires right { IsBounded (piece_in ring.old right.now) }
    requires fits { PieceFits (combined_piece operation (piece_in ring.old left.now)
        (piece_in ring.old right.now)) }
    ensures part { IfOk result (IsPartFor ring.new (combined_piece operation
        (piece_in ring.old left.now) (piece_in ring.old right.now))) }
    ensures grows { Grows ring.old ring.new }
{
    match operation {
        Operation::Sum => sum(alloc, ring, left, right),
        Operation::Difference => difference(alloc, ring, left, right),
        Operation::Product => product(alloc, ring, left, right),
    }
}

/// The sum.
fn sum(alloc: Global, ring: &Ring, left: &Part, right: &Part) -> Result<Part, NoMemory>
    requires left_element { IsElement ring.now left.now.element }
    requires right_element { IsElement ring.now right.now.element }
    requires left { IsBounded (piece_in ring.now left.now) }
    requires right { IsBounded (piece_in ring.now right.now) }
    requires fits { PieceFits (piece_sum (piece_in ring.now left.now)
        (piece_in ring.now right.now)) }
    ensures { IfOk result (IsPartFor ring.now (piece_sum (piece_in ring.now left.now)
        (piece_in ring.now right.now))) }
{
    Ok(Part {
        element: ring.sum(alloc, &left.element, &right.element)?,
        weight: left.weight + right.weight,
        count: left.count + right.count,
        degree: left.degree.max(right.degree),
    })
}

/// The difference.
fn difference(alloc: Global, ring: &Ring, left: &Part, right: &Part) -> Result<Part, NoMemory>
    requires left_element { IsElement ring.now left.now.element }
    requires right_element { IsElement ring.now right.now.element }
    requires left { IsBounded (piece_in ring.now left.now) }
    requires right { IsBounded (piece_in ring.now right.now) }
    requires fits { PieceFits (piece_difference (piece_in ring.now left.now)
        (piece_in ring.now right.now)) }
    ensures { IfOk result (IsPartFor ring.now (piece_difference (piece_in ring.now left.now)
        (piece_in ring.now right.now))) }
{
    Ok(Part {
        element: ring.difference(alloc, &left.element, &right.element)?,
        weight: left.weight + right.weight,
        count: left.count + right.count,
        degree: left.degree.max(right.degree),
    })
}

/// The product.
fn product(alloc: Global, ring: &mut Ring, left: &Part, right: &Part) -> Result<Part, NoMemory>
    requires left_element { IsElement ring.old left.now.element }
    requires right_element { IsElement ring.old right.now.element }
    requires left { IsBounded (piece_in ring.old left.now) }
    requires right { IsBounded (piece_in ring.old right.now) }
    requires fits { PieceFits (piece_product (piece_in ring.old left.now)
        (piece_in ring.old right.now)) }
    ensures part { IfOk result (IsPartFor ring.new (piece_product (piece_in ring.old left.now)
        (piece_in ring.old right.now))) }
    ensures grows { Grows ring.old ring.new }
{
    Ok(Part {
        element: ring.product(alloc, &left.element, &right.element)?,
        weight: left.weight * right.weight,
        count: left.count * right.count,
        degree: left.degree + right.degree,
    })
}

/// The other sign.
pub(crate) fn opposite(alloc: Global, ring: &Ring, part: &Part) -> Result<Part, NoMemory>
    requires { IsElement ring.now part.now.element }
    ensures { IfOk result (IsPartFor ring.now (piece_opposite (piece_in ring.now part.now))) }
{
    Ok(Part {
        element: ring.opposite(alloc, &part.element)?,
        weight: part.weight,
        count: part.count,
        degree: part.degree,
    })
}

impl Part {
    /// The piece that the part is. The ring is spent.
    pub(crate) fn into_piece(self, alloc: Global, ring: Ring) -> Result<Piece, NoMemory>
        requires { IsElement ring self.element }
        ensures { IfOk result (λ f. f ≡ piece_in ring self) }
    {
        Ok(Piece {
            poly: ring.into_poly(alloc, self.element)?,
            weight: self.weight,
            count: self.count,
            degree: self.degree,
        })
    }
}
