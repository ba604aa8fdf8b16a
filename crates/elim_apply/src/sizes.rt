//! The charge, the weight and the degree of the line of a move, before anything is multiplied out.
//! A number past `2^128 - 1` is given as `2^128 - 1`.

ghost use Rattle.std.specs.Prelude.{◌≡◌, ◌+◌, ◌-◌, ◌*◌, ◌^◌, ◌<◌, IfOk, List, length, min};
ghost use Rattle.std.specs.Prelude.{sum_by};
ghost use Rattle.geo_logs.specs.Moves.{move_charge};
ghost use Rattle.elim_apply.specs.Inner.Shares.{AreShares, HaveShares, IsShareOf};
ghost use Rattle.elim_apply.specs.Inner.Sketches.{AreRising, sketch, sketched_denominator};
ghost use Rattle.elim_apply.specs.Inner.Sketches.{sketches};
ghost use Rattle.elim_apply.specs.Inner.Sizes.{IsSizeOf};
ghost use Rattle.geo_poly.specs.declared.rows.Row.{Row};
ghost use Rattle.geo_poly.specs.Polynomials.{IsPolynomial, term_at};
ghost use Rattle.geo_poly.specs.Replace.{AllPowersSmall, most_denominators};
ghost use Rattle.geo_poly.specs.Replace.{replaced_degree, replaced_weight};
ghost use Rattle.geo_poly.specs.Shared.{AreParts, told};

use crate::limits::LineSize;
use crate::numbered::NumberedRow;
use crate::share::Share;
use crate::shares::shares_of;
use fraction_poly::RowNumbers;
use geo_points::NoMemory;
use geo_poly::{Poly, Shared};
use std::alloc::Global;

/// The size of the line, where the rows replace their variables and the denominator has the numbers
/// `den`.
pub(crate) fn size_of_line(
    alloc: Global,
    rows: &[NumberedRow],
    den: RowNumbers,
    poly: &Poly,
) -> Result<LineSize, NoMemory>
    requires powers { AllPowersSmall (sketches rows.now) }
    requires rising { AreRising rows.now }
    requires valid { IsPolynomial poly.now }
    ensures size { IfOk result (λ size. IsSizeOf size (move_charge (sketch rows.now den) poly.now)
        (replaced_weight (sketches rows.now) (sketched_denominator den) poly.now)
        (replaced_degree (sketches rows.now) (sketched_denominator den) poly.now)) }
    ensures top { IfOk result
        (λ size. size.top ≡ most_denominators (sketches rows.now) poly.now) }
{
    let p = poly.shared();
    let shares = shares_of(alloc, rows, &p)?;
    Ok(size_by_terms(rows, den, &p, &shares))
}

/// The size of the line, term by term.
fn size_by_terms(rows: &[NumberedRow], den: RowNumbers, p: &Shared, shares: &[Share]) -> LineSize
    requires parts { AreParts p.now }
    requires shares { AreShares (sketches rows.now) p.now shares.now }
    ensures size { IsSizeOf result (move_charge (sketch rows.now den) (told p.now))
        (replaced_weight (sketches rows.now) (sketched_denominator den) (told p.now))
        (replaced_degree (sketches rows.now) (sketched_denominator den) (told p.now)) }
    ensures top { result.top ≡ most_denominators (sketches rows.now) (told p.now) }
{
    let top = most_denominators(p, shares);
    let mut charge = charge_of_rows(rows, den);
    let mut weight = 0u128;
    let mut degree = 0u128;
    for i in 0..p.list.len() {
        let share = share_at(p, shares, i).times(p.list[i].1.unsigned_abs());
        charge = charge.saturating_add(share.charge(den.kb, top));
        weight = weight.saturating_add(share.weight_over(den.wb, top));
        degree = degree.max(share.degree_over(den.gb, top));
    }
    LineSize {
        charge,
        weight,
        degree,
        top,
    }
}

/// The charge for the step's number and for the rows.
fn charge_of_rows(rows: &[NumberedRow], den: RowNumbers) -> u128
    ensures { result ≡ min (den.charge
        + 4 * (sum_by (λ r. r.num.count) (sketches rows.now) + den.kb)) (2 ^ 128 - 1) }
{
    let mut counts = 0u128;
    for row in rows {
        counts = counts.saturating_add(row.numbers.ka);
    }
    den.charge
        .saturating_add(counts.saturating_add(den.kb).saturating_mul(4))
}

/// The greatest number of denominators that a monomial calls for.
fn most_denominators(p: &Shared, shares: &[Share]) -> u32
    requires { length shares.now ≡ length p.now.list.now }
    ensures { (rows : List Row) → AreShares rows p.now shares.now
        → result ≡ most_denominators rows (told p.now) }
{
    let mut most = 0;
    for i in 0..p.list.len() {
        most = most.max(share_at(p, shares, i).denominators);
    }
    most
}

/// The share of the monomial at place i, from 0.
fn share_at(p: &Shared, shares: &[Share], i: usize) -> Share
    requires shares { length shares.now ≡ length p.now.list.now }
    requires place { i < length p.now.list.now }
    ensures { (rows : List Row) → HaveShares rows p.now shares.now
        → IsShareOf rows (term_at (told p.now) i).0 1 result }
{
    let _ = p;
    shares[i]
}
