//! How large a replacement gets, which is known before it is made.

ghost use Rattle.std.specs.Prelude.{min, ◌-◌, ◌≡◌, ◌^◌, ◌≤◌, pos};
ghost use Rattle.geo_poly.specs.Monomials.{IsMonomial};
ghost use Rattle.geo_poly.specs.Replace.{AllBounded, AllPowersSmall, IsBounded};
ghost use Rattle.geo_poly.specs.Replace.{degree_bound, denominators, most_denominators};
ghost use Rattle.geo_poly.specs.Replace.{term_degree, term_weight, weight_of};
ghost use Rattle.geo_poly.specs.Shared.{AreParts, IsIndexOf, told, told_powers};

use crate::row_table::RowTable;
use crate::rows::Piece;
use crate::shared::{Indexed, Shared};
use mono_store::MonoId;

/// The powers of the denominator that a monomial calls for.
fn denominators_at(p: &Shared, id: MonoId, rows: &RowTable) -> u32
    requires powers { AllPowersSmall rows.now }
    requires index { IsIndexOf p.now id }
    requires monomial { IsMonomial (told_powers p.now id) }
    ensures { result ≡ denominators rows.now (told_powers p.now id) }
{
    let mut denominators = 0;
    let mut rest = id;
    while let Some(first) = p.first_power(rest) {
        if let Some(row) = rows.find_row(first.var, first.number) {
            denominators += row.power * first.exponent;
        }
        rest = first.rest;
    }
    denominators
}

/// The greatest power of the denominator that a monomial calls for.
pub(crate) fn most_denominators_of(p: &Shared, rows: &RowTable) -> u32
    requires powers { AllPowersSmall rows.now }
    requires parts { AreParts p.now }
    ensures { result ≡ most_denominators rows.now (told p.now) }
{
    let mut most = 0;
    for (id, _) in p.list {
        let denominators = denominators_at(p, *id, rows);
        if denominators > most {
            most = denominators;
        }
    }
    most
}

/// The weight of what becomes of a term, or the greatest number where it passes that.
fn weight_at(p: &Shared, t: Indexed, rows: &RowTable, den: &Piece, top: u32) -> u128
    requires index { IsIndexOf p.now t.0 }
    requires rows { AllBounded rows.now }
    requires den { IsBounded den.now }
    requires top { denominators rows.now (told_powers p.now t.0) ≤ top }
    ensures { result
        ≡ min (term_weight rows.now den.now top (told_powers p.now t.0, t.1)) (2 ^ 128 - 1) }
{
    let mut weight = t.1.unsigned_abs();
    let mut missing = top;
    let mut rest = t.0;
    while let Some(first) = p.first_power(rest) {
        if let Some(row) = rows.find_row(first.var, first.number) {
            missing -= row.power * first.exponent;
            weight = weight.saturating_mul(row.num.weight.saturating_pow(first.exponent));
        }
        rest = first.rest;
    }
    weight.saturating_mul(den.weight.saturating_pow(missing))
}

/// The sum of the weights of what becomes of the terms, or the greatest number where it passes it.
pub(crate) fn weight_of_terms(p: &Shared, rows: &RowTable, den: &Piece, top: u32) -> u128
    requires parts { AreParts p.now }
    requires rows { AllBounded rows.now }
    requires den { IsBounded den.now }
    requires top { most_denominators rows.now (told p.now) ≤ top }
    ensures { result ≡ min (weight_of rows.now den.now top (told p.now)) (2 ^ 128 - 1) }
{
    let mut weight = 0u128;
    for t in p.list {
        weight = weight.saturating_add(weight_at(p, *t, rows, den, top));
    }
    weight
}

/// The degree of what becomes of a term, or the greatest number where it passes that.
fn degree_at(p: &Shared, id: MonoId, rows: &RowTable, den: &Piece, top: u32) -> u128
    requires index { IsIndexOf p.now id }
    requires top { denominators rows.now (told_powers p.now id) ≤ top }
    requires monomial { IsMonomial (told_powers p.now id) }
    ensures { result
        ≡ min (term_degree rows.now den.now top (told_powers p.now id, pos 1)) (2 ^ 128 - 1) }
{
    let mut degree = 0u128;
    let mut missing = top;
    let mut rest = id;
    while let Some(first) = p.first_power(rest) {
        match rows.find_row(first.var, first.number) {
            Some(row) => {
                missing -= row.power * first.exponent;
                degree = degree.saturating_add(
                    row.num.degree.saturating_mul(first.exponent as u128),
                );
            }
            None => degree = degree.saturating_add(first.exponent as u128),
        }
        rest = first.rest;
    }
    degree.saturating_add(den.degree.saturating_mul(missing as u128))
}

/// The greatest degree of what becomes of a term, or the greatest number where it passes that.
pub(crate) fn degree_of_terms(p: &Shared, rows: &RowTable, den: &Piece, top: u32) -> u128
    requires parts { AreParts p.now }
    requires top { most_denominators rows.now (told p.now) ≤ top }
    ensures { result ≡ min (degree_bound rows.now den.now top (told p.now)) (2 ^ 128 - 1) }
{
    let mut degree = 0u128;
    for (id, _) in p.list {
        let of_term = degree_at(p, *id, rows, den, top);
        if of_term > degree {
            degree = of_term;
        }
    }
    degree
}
