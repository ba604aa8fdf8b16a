//! Lists of polynomials.

ghost use Rattle.std.specs.Prelude.{◌≡◌, ◌↔◌, ◌≤◌, length, sum_by, All, IfOk, IsTrue};
ghost use Rattle.geo_poly.specs.Polynomials.{IsPolynomial};
ghost use Rattle.geo_poly.specs.Specialise.{NoneZero};

use crate::specialisations::Specialisation;
use geo_base::Budget;
use geo_points::NoMemory;
use geo_poly::Poly;
use std::alloc::Global;

/// Whether none of the polynomials is zero.
pub fn none_zero(polys: &[Poly]) -> bool
    ensures { IsTrue result ↔ NoneZero polys.now }
{
    for poly in polys {
        if poly.is_zero() {
            return false;
        }
    }
    true
}

/// Whether none of them is zero now.
pub fn none_left_zero(polys: &[Specialisation]) -> bool
    ensures { IsTrue result ↔ NoneZero polys.now }
{
    for poly in polys {
        if poly.is_zero() {
            return false;
        }
    }
    true
}

/// The polynomials before the first try of them. The budget has its charge.
pub fn specialisations(
    alloc: Global,
    polys: &[Poly],
    budget: &Budget,
) -> Result<Vec<Specialisation>, NoMemory>
    requires paid { sum_by length polys.now ≤ budget.now.left }
    ensures { IfOk result (λ qs. qs.items ≡ polys.now) }
{
    let _ = budget;
    let mut made = Vec::with_capacity(alloc, polys.len())?;
    for poly in polys {
        made.push(Specialisation::of(alloc, poly)?)?;
    }
    Ok(made)
}

/// True: each polynomial of a list is one, which contracts then know.
pub fn are_valid(polys: &[Poly]) -> bool
    ensures valid { All IsPolynomial polys.now }
    ensures always { IsTrue result }
{
    for poly in polys {
        prove!(poly.is_valid());
    }
    true
}

/// True: each of a list is a polynomial, which contracts then know.
pub fn are_specialisations(polys: &[Specialisation]) -> bool
    ensures valid { All IsPolynomial polys.now }
    ensures always { IsTrue result }
{
    for poly in polys {
        prove!(poly.is_valid());
    }
    true
}
