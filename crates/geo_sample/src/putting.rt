//! A number other than 0 put into polynomials: what becomes of those of several terms is made once, to see that
//! none is zero, and to be put in. A single term stays other than zero, and takes the number in place.

ghost use Rattle.std.specs.Prelude.{◌≡◌, ◌≢◌, ◌↔◌, ◌+◌, ◌^◌, ◌<◌, ◌≤◌, [], length, sum_by, unsigned_abs};
ghost use Rattle.std.specs.Prelude.{unwrap_or, All, IfNone, IfOk, IfSome, IsTrue};
ghost use Rattle.geo_poly.specs.Specialise.{NoneZero, specialised, specialised_weight};
ghost use Rattle.geo_sample.specs.Inner.Changes.{changed_by, waiting, waits};
ghost use Rattle.geo_sample.specs.Tries.{all_specialised};

use crate::lists::are_specialisations;
use crate::specialisations::Specialisation;
use geo_points::NoMemory;
use geo_poly::{Poly, Ticks, Var};
use std::alloc::Global;
use std::sync::ledger::Ledger;

/// What each polynomial becomes with the number for the variable, or `None` where the number is put into it later,
/// which does not make it zero; no list where one is zero then.
pub fn nonzero_changes<L: Ledger>(
    alloc: Global,
    polys: &[Specialisation],
    v: Var,
    number: i128,
    ticks: &mut Ticks<L>,
) -> Result<Option<Vec<Option<Poly>>>, NoMemory>
    requires number { unsigned_abs number ≢ 0 }
    requires weight { All (λ p. specialised_weight v number p < 2 ^ 127) polys.now }
    ensures changed { IfOk result (λ o. IfSome o (λ changes.
        changed_by v number changes.items polys.now ≡ all_specialised v number polys.now)) }
    ensures whole { IfOk result
        (λ o. IfSome o (λ changes. length changes.items ≡ length polys.now)) }
    ensures nonzero { IfOk result
        (λ o. IfSome o (λ _. NoneZero (all_specialised v number polys.now))) }
    ensures none { IfOk result
        (λ o. IfNone o (NoneZero (all_specialised v number polys.now) → ⊥)) }
    ensures ticks { ticks.new ≤ ticks.old + sum_by length polys.now }
    ensures waits { IfOk result (λ o. IfSome o (λ changes.
        ticks.new + waiting changes.items polys.now ≡ ticks.old + sum_by length polys.now)) }
{
    prove!(are_specialisations(polys));
    let mut changes = Vec::with_capacity(alloc, polys.len())?;
    for poly in polys {
        let change = poly.changed(alloc, v, number, ticks)?;
        if is_zero_after(poly, &change) {
            return Ok(None);
        }
        changes.push(change)?;
    }
    Ok(Some(changes))
}

/// Whether the polynomial is zero after the change, or where there is none, now.
fn is_zero_after(poly: &Specialisation, change: &Option<Poly>) -> bool
    ensures some { IfSome change.now (λ p. IsTrue result ↔ (p ≡ [])) }
    ensures none { IfNone change.now (IsTrue result ↔ (poly.now ≡ [])) }
{
    match change {
        Some(changed) => changed.is_zero(),
        None => poly.is_zero(),
    }
}

/// Puts in what the polynomials become, and the number for the variable of the others.
pub fn put_changes<L: Ledger>(
    alloc: Global,
    polys: &mut Vec<Specialisation>,
    mut changes: Vec<Option<Poly>>,
    v: Var,
    number: i128,
    ticks: &mut Ticks<L>,
) -> Result<(), NoMemory>
    requires whole { length changes.items ≡ length polys.old.items }
    requires weight { All (λ p. specialised_weight v number p < 2 ^ 127) polys.old.items }
    ensures put { IfOk result
        (λ _. polys.new.items ≡ changed_by v number changes.items polys.old.items) }
    ensures ticks { ticks.new ≤ ticks.old + waiting changes.items polys.old.items }
{
    for place in 0..polys.len() {
        let change = changes[place].take();
        put_change(alloc, &mut polys[place], change, v, number, ticks)?;
    }
    Ok(())
}

/// Puts in what the polynomial becomes, or the number for the variable.
fn put_change<L: Ledger>(
    alloc: Global,
    poly: &mut Specialisation,
    change: Option<Poly>,
    v: Var,
    number: i128,
    ticks: &mut Ticks<L>,
) -> Result<(), NoMemory>
    requires { specialised_weight v number poly.old < 2 ^ 127 }
    ensures put { IfOk result (λ _. poly.new ≡ unwrap_or change (specialised v number poly.old)) }
    ensures ticks { ticks.new ≡ ticks.old + waits change poly.old }
{
    match change {
        Some(changed) => {
            *poly = Specialisation::sum(changed);
            Ok(())
        }
        None => poly.put_number(alloc, v, number, ticks),
    }
}
