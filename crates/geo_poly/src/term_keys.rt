//! The keys of what is left of the terms of a replacement.

ghost use Rattle.std.specs.Prelude.{◌≡◌, All, Contains, IfOk, IfSome, List};
ghost use Rattle.std.specs.List.Sorted.{IsStrictlySortedBy};
ghost use Rattle.sparse_lists.specs.SparseLists.{AllKeys};
ghost use Rattle.geo_poly.specs.declared.rows.Row.{Row};
ghost use Rattle.geo_poly.specs.declared.variables.Var.{Var};
ghost use Rattle.geo_poly.specs.Inner.Keyed.{HasRoom, IsIndexUnder, KeepsKeys};
ghost use Rattle.geo_poly.specs.Inner.Moved.{IsMovedKey};
ghost use Rattle.geo_poly.specs.Inner.TermKeys.{AreTermKeys, IsKeyed};
ghost use Rattle.geo_poly.specs.Keys.{Keys};
ghost use Rattle.geo_poly.specs.Monomials.{IsMonomial};
ghost use Rattle.geo_poly.specs.Replace.{others};
ghost use Rattle.geo_poly.specs.Shared.{AreParts, IsIndexOf, named, told_powers};
ghost use Rattle.geo_poly.specs.Variables.{var_cmp};

use crate::monomial_keys::MonomialKeys;
use crate::moving::{MovedMonomials, index_in, moved_monomials};
use crate::pending::{Listed, Listing, Pending};
use crate::settings::Setting;
use crate::shared::Shared;
use geo_points::NoMemory;
use mono_store::MonoId;
use std::alloc::Global;

/// The listed terms, of which most have keys, and what else tells keys.
pub(crate) struct TermKeys<'a> {
    listed: &'a [Listed],
    moved: MovedMonomials,
}

/// By hand, so that a caller's proof sees one call where they are let go.
impl<'a> Drop for TermKeys<'a> {
    fn drop(self) {
        let TermKeys {
            listed: _,
            moved: _,
        } = self;
    }
}

/// The keys of the terms of a listing. What becomes of variables and links is told only where a term
/// has no key.
pub(crate) fn keys_of_terms<'a, K: MonomialKeys>(
    alloc: Global,
    setting: &Setting,
    keys: &mut K,
    p: &Shared,
    listing: &'a Listing,
) -> Result<TermKeys<'a>, NoMemory>
    requires rising { IsStrictlySortedBy var_cmp setting.now.vars.now }
    requires parts { AreParts p.now }
    requires keyed { All (IsKeyed p.now setting.now.rows.now setting.now.vars.now (K.keys keys.old))
        listing.now.terms.items }
    ensures table { IfOk result (AreTermKeys setting.now p.now (K.keys keys.new)) }
    ensures kept { KeepsKeys (K.keys keys.old) (K.keys keys.new) }
{
    let listed = listing.terms.as_slice();
    if listing.is_keyed {
        let moved = MovedMonomials::none(alloc);
        return Ok(TermKeys { listed, moved });
    }
    let moved = moved_monomials(alloc, keys, setting.vars, setting.rows, p, &[])?;
    Ok(TermKeys { listed, moved })
}

/// The key that a monomial has at a place of the list, where it stands there.
fn listed_key(listed: &[Listed], id: MonoId, place: usize) -> Option<u64>
    ensures { IfSome result (λ key. (p : Shared) (rows : List Row) (vars : List Var) (keys : Keys)
        → All (IsKeyed p rows vars keys) listed.now → IsMovedKey p rows vars keys id key) }
{
    match listed.get(place) {
        Some(term) if term.id == id => term.key,
        _ => None,
    }
}

/// The key of what is left of the monomial of a term.
pub(crate) fn key_of_term<K: MonomialKeys>(
    alloc: Global,
    setting: &Setting,
    keys: &mut K,
    p: &Shared,
    table: &TermKeys,
    term: &Pending,
) -> Result<MonoId, NoMemory>
    requires rising { IsStrictlySortedBy var_cmp setting.now.vars.now }
    requires table { AreTermKeys setting.now p.now (K.keys keys.old) table.now }
    requires index { IsIndexOf p.now term.now.id }
    requires monomial { IsMonomial (told_powers p.now term.now.id) }
    requires known { AllKeys (Contains setting.now.vars.now) (told_powers p.now term.now.id) }
    requires reach { HasRoom setting.now.vars.now (K.keys keys.old)
        (others setting.now.rows.now (told_powers p.now term.now.id)) }
    ensures index { IfOk result (IsIndexUnder setting.now.vars.now (K.keys keys.new)) }
    ensures powers { IfOk result (λ new. named setting.now.vars.now ((K.keys keys.new).powers new.0)
        ≡ others setting.now.rows.now (told_powers p.now term.now.id)) }
    ensures kept { KeepsKeys (K.keys keys.old) (K.keys keys.new) }
{
    match listed_key(table.listed, term.id, term.place) {
        Some(key) => Ok(MonoId(key)),
        None => {
            let (vars, rows) = (setting.vars, setting.rows);
            index_in(alloc, keys, vars, rows, p, &table.moved, term.id)
        }
    }
}
