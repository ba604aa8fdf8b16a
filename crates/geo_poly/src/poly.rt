//! What a polynomial is.

ghost use Rattle.std.specs.Prelude.{◌≡◌};
ghost use Rattle.geo_poly.specs.Shared.{IsShared, terms_of};

use crate::shared::Shared;
use crate::stored::Stored;
use std::marker::Model;
use std::ops::Deref;

/// A polynomial over whole numbers: monomials with nonzero coefficients, the greatest monomial
/// first. The monomials stand in a store of its own, where a variable has the number of its place
/// in a list: a polynomial lends this as `Stored`, whose readers `vars`, `monos` and `mono_at` are
/// called on it.
pub struct Poly {
    pub(crate) stored: Stored,
}

/// By hand, so that a caller's proof sees one call where a polynomial is let go.
impl Drop for Poly {
    fn drop(self) {
        let Poly { stored: _ } = self;
    }
}

impl Model for Poly {
    ghost use Rattle.geo_poly.specs.Polynomials.{Summands};
    ghost use Rattle.geo_poly.specs.Shared.{IsShared, terms_of};

    ghost Value = { Summands };

    ghost view = { λ p. terms_of p.stored.vars p.stored.monos p.stored.list.items };

    ghost invariant = { λ p. IsShared p.stored.vars p.stored.monos p.stored.list.items };
}

impl Deref for Poly {
    ghost use Rattle.geo_poly.specs.Stored.{IsStoredBy};

    type Target = Stored;

    ghost deref_gives = { IsStoredBy };

    fn deref(&self) -> &Stored {
        &self.stored
    }
}

impl Poly {
    /// The variables, the store and the list of the polynomial.
    pub fn shared(&self) -> Shared<'_>
        ensures terms { terms_of result.vars.now result.monos.now result.list.now ≡ self.now }
        ensures valid { IsShared result.vars.now result.monos.now result.list.now }
    {
        Shared {
            vars: self.stored.vars.as_slice(),
            monos: &self.stored.monos,
            list: self.stored.list.as_slice(),
        }
    }
}
