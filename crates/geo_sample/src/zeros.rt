//! The number 0 put for a variable of all polynomials, without a copy.

ghost use Rattle.std.specs.Prelude.{pos, ◌≡◌, ◌↔◌, ◌+◌, ◌≤◌, false, length, sum_by, true, IsTrue};
ghost use Rattle.geo_poly.specs.Specialise.{NoneZero};
ghost use Rattle.geo_sample.specs.Tries.{all_specialised};

use crate::specialisations::Specialisation;
use geo_base::Budget;
use geo_poly::{Ticks, Var};
use std::sync::ledger::Ledger;

/// Puts 0 for the variable where none of the polynomials is zero then, and answers whether it did.
/// The budget has the charge.
pub fn keep_zero<L: Ledger>(
    polys: &mut Vec<Specialisation>,
    v: Var,
    budget: &Budget,
    ticks: &mut Ticks<L>,
) -> bool
    requires paid { sum_by length polys.old.items ≤ budget.now.left }
    ensures keeps { IsTrue result ↔ NoneZero (all_specialised v (pos 0) polys.old.items) }
    ensures put { result ≡ true → polys.new.items ≡ all_specialised v (pos 0) polys.old.items }
    ensures kept { result ≡ false → polys.new.items ≡ polys.old.items }
    ensures ticks { ticks.new ≤ ticks.old + sum_by length polys.old.items }
{
    if none_vanishes(polys, v) {
        put_zero(polys, v, budget, ticks);
        return true;
    }
    false
}

/// Whether none of the polynomials is zero with 0 for the variable.
fn none_vanishes(polys: &[Specialisation], v: Var) -> bool
    ensures { IsTrue result ↔ NoneZero (all_specialised v (pos 0) polys.now) }
{
    for poly in polys {
        if poly.vanishes_at_zero(v) {
            return false;
        }
    }
    true
}

/// Puts 0 for the variable of each. The budget has the charge.
pub fn put_zero<L: Ledger>(
    polys: &mut Vec<Specialisation>,
    v: Var,
    budget: &Budget,
    ticks: &mut Ticks<L>,
)
    requires paid { sum_by length polys.old.items ≤ budget.now.left }
    ensures put { polys.new.items ≡ all_specialised v (pos 0) polys.old.items }
    ensures ticks { ticks.new ≤ ticks.old + sum_by length polys.old.items }
{
    let _ = budget;
    for place in 0..polys.len() {
        polys[place].put_zero(v, ticks);
    }
}
