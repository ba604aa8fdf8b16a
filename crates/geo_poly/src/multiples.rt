//! The multiples of a list by one term, where nothing is to be merged.

ghost use Rattle.std.specs.Prelude.{◌≡◌, ◌∷◌, [], IfOk};
ghost use Rattle.std.specs.List.Sorted.{IsStrictlySortedBy};
ghost use Rattle.sparse_lists.specs.SparseLists.{AllKeys};
ghost use Rattle.mono_store.specs.Stores.{Keeps};
ghost use Rattle.geo_poly.specs.Polynomials.{CanMultiply, multiples};
ghost use Rattle.geo_poly.specs.Shared.{IsIndex, term_of, terms_of};
ghost use Rattle.geo_poly.specs.Variables.{var_cmp};

use crate::shared::Indexed;
use crate::variables::Var;
use geo_points::NoMemory;
use mono_store::Monos;
use std::alloc::Global;

/// The list times the one term. Its order stays.
pub(crate) fn multiples_list(
    alloc: Global,
    store: &mut Monos,
    vars: &[Var],
    t: Indexed,
    list: &[Indexed],
) -> Result<Vec<Indexed>, NoMemory>
    requires rising { IsStrictlySortedBy var_cmp vars.now }
    requires term { IsIndex vars.now store.old t.0 }
    requires indices { AllKeys (IsIndex vars.now store.old) list.now }
    requires fits { CanMultiply (term_of vars.now store.old t ∷ [])
        (terms_of vars.now store.old list.now) }
    ensures indices { IfOk result (λ product. AllKeys (IsIndex vars.now store.new) product.items) }
    ensures terms { IfOk result (λ product. terms_of vars.now store.new product.items
        ≡ multiples (term_of vars.now store.old t) (terms_of vars.now store.old list.now)) }
    ensures kept { Keeps store.old store.new }
{
    let _ = vars;
    let mut product = Vec::with_capacity(alloc, list.len())?;
    for (id, coefficient) in list {
        let monomial = store.product(t.0, *id)?;
        product.push((monomial, t.1 * *coefficient))?;
    }
    Ok(product)
}
