//! The number 0 put for a variable, without a copy: the terms that lack the variable stay.

ghost use Rattle.std.specs.Prelude.{◌≡◌, ◌≢◌, ◌↔◌, ◌<◌, [], filter, length, pos, IsTrue};
ghost use Rattle.std.specs.List.Sorted.{IsStrictlySortedBy};
ghost use Rattle.geo_poly.specs.Inner.Parts.{lacks};
ghost use Rattle.geo_poly.specs.Monomials.{IsMonomial, exponent};
ghost use Rattle.geo_poly.specs.Shared.{AreParts, IsIndexOf, IsShared, terms_of, told};
ghost use Rattle.geo_poly.specs.Shared.{told_powers, var_at};
ghost use Rattle.geo_poly.specs.Specialise.{specialised};
ghost use Rattle.geo_poly.specs.Variables.{var_cmp};

use crate::numbering::number_in;
use crate::poly::Poly;
use crate::shared::{Indexed, Shared};
use crate::variables::Var;
use mono_store::{MonoId, Monos};

impl Poly {
    /// Whether the polynomial becomes zero with 0 for the variable: each monomial has it.
    pub fn vanishes_at_zero(&self, v: Var) -> bool
        ensures { IsTrue result ↔ (specialised v (pos 0) self.now ≡ []) }
    {
        if self.is_number() {
            return self.is_zero();
        }
        let p = &self.shared();
        match number_in(p, v) {
            Some(number) => all_have(p, number),
            None => self.is_zero(),
        }
    }
}

/// Whether each monomial has the variable of this number. The last one is looked at first: it is the
/// least, which lacks the first variables soonest.
fn all_have(p: &Shared, number: u64) -> bool
    requires parts { AreParts p.now }
    requires place { number < length p.now.vars.now }
    ensures { IsTrue result ↔ (filter (lacks (var_at p.now.vars.now number)) (told p.now) ≡ []) }
{
    for i in (0..p.list.len()).rev() {
        if !has_number(p, p.list[i].0, number) {
            return false;
        }
    }
    true
}

/// Whether the monomial has the variable of this number. The numbers rise from power to power, so the
/// walk ends where they pass it.
fn has_number(p: &Shared, id: MonoId, number: u64) -> bool
    requires rising { IsStrictlySortedBy var_cmp p.now.vars.now }
    requires index { IsIndexOf p.now id }
    requires monomial { IsMonomial (told_powers p.now id) }
    requires place { number < length p.now.vars.now }
    ensures { IsTrue result
        ↔ (exponent (var_at p.now.vars.now number) (told_powers p.now id) ≢ 0) }
{
    let mut rest = id;
    while let Some(first) = p.first_power(rest) {
        if first.number >= number {
            return first.number == number;
        }
        rest = first.rest;
    }
    false
}

/// Keeps the terms that lack the variable of this number, in their places of the same list.
pub(crate) fn keep_lacking(vars: &[Var], monos: &Monos, list: &mut Vec<Indexed>, number: u64)
    requires shared { IsShared vars.now monos.now list.old.items }
    requires place { number < length vars.now }
    ensures shared { IsShared vars.now monos.now list.new.items }
    ensures terms { terms_of vars.now monos.now list.new.items
        ≡ specialised (var_at vars.now number) (pos 0)
        (terms_of vars.now monos.now list.old.items) }
{
    let p = Shared {
        vars,
        monos,
        list: &[],
    };
    let mut kept = 0;
    for i in 0..list.len() {
        if !has_number(&p, list[i].0, number) {
            list.swap(kept, i);
            kept += 1;
        }
    }
    list.truncate(kept);
}
