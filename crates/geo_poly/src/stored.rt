//! How a polynomial is stored.

ghost use Rattle.std.specs.Prelude.{◌≡◌, ◌↔◌, ◌<◌, [], Contains, length};
ghost use Rattle.std.specs.List.Sorted.{IsStrictlySortedBy};
ghost use Rattle.mono_store.specs.Stores.{IsStore};
ghost use Rattle.geo_poly.specs.PolynomialVariables.{AllVariables};
ghost use Rattle.geo_poly.specs.Polynomials.{Summands, term_at};
ghost use Rattle.geo_poly.specs.Shared.{IsIndex, IsShared, powers_at};
ghost use Rattle.geo_poly.specs.Stored.{IsStoredBy, stored_terms};
ghost use Rattle.geo_poly.specs.Variables.{var_cmp};

use crate::shared::Indexed;
use crate::variables::Vars;
use mono_store::{MonoId, Monos};

/// How a polynomial is stored: its variables, the store of its monomials, and the index of each
/// monomial with its coefficient, in the order of the polynomial. The number of a variable is its
/// place in the list.
pub struct Stored {
    pub(crate) vars: Vars,
    pub(crate) monos: Monos,
    pub(crate) list: Vec<Indexed>,
}

/// By hand, so that a caller's proof sees one call where it is let go.
impl Drop for Stored {
    fn drop(self) {
        let Stored {
            vars: _,
            monos: _,
            list: _,
        } = self;
    }
}

impl Stored {
    /// The variables in order, in which every variable that occurs stands.
    pub fn vars(&self) -> &Vars
        ensures vars { result.now ≡ self.now.vars }
        ensures rising { (p : Summands) → IsStoredBy p self.now
            → IsStrictlySortedBy var_cmp result.now }
        ensures known { (p : Summands) → IsStoredBy p self.now
            → AllVariables (Contains result.now) p }
    {
        &self.vars
    }

    /// The store of the monomials.
    pub fn monos(&self) -> &Monos
        ensures monos { result.now ≡ self.now.monos }
        ensures store { IsStore result.now }
    {
        let _one = self.monos.one();
        &self.monos
    }

    /// The index, in the store, of the monomial at place i, from 0. It is 0 at the monomial with no
    /// variable.
    pub fn mono_at(&self, i: u64) -> MonoId
        requires stored { IsShared self.now.vars self.now.monos self.now.list.items }
        requires place { i < length (stored_terms self.now) }
        ensures index { IsIndex self.now.vars self.now.monos result }
        ensures monomial { powers_at self.now.vars self.now.monos result
            ≡ (term_at (stored_terms self.now) i).0 }
        ensures one { (result.0 ≡ 0) ↔ ((term_at (stored_terms self.now) i).0 ≡ []) }
    {
        let _one = self.monos.one();
        let list = self.list.as_slice();
        let (id, _) = list[i as usize];
        id
    }
}
