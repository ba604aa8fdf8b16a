//! Polynomials over one store, while one is made of many.

ghost use Rattle.std.specs.Prelude.{◌≡◌, ◌≢◌, ◌+◌, ◌^◌, ◌<◌, ◌∷◌, [], Contains, IfOk, unsigned_abs};
ghost use Rattle.std.specs.List.Sorted.{IsStrictlySortedBy};
ghost use Rattle.geo_poly.specs.Polynomials.{CanMultiply, constant_of, difference_of, negated};
ghost use Rattle.geo_poly.specs.Polynomials.{norm_of, product_of, sum_of};
ghost use Rattle.geo_poly.specs.PolynomialVariables.{AllVariables};
ghost use Rattle.geo_poly.specs.Rings.{Grows, IsElement, IsElementFor, polynomial_in};
ghost use Rattle.geo_poly.specs.Variables.{var_cmp};

use crate::interning::place_near;
use crate::moving::moved;
use crate::poly::Poly;
use crate::products::product_list;
use crate::shared::{Indexed, Shared};
use crate::sums::{merged_lists, negated_list};
use crate::variables::{Var, Vars};
use geo_points::NoMemory;
use mono_store::Monos;
use std::alloc::Global;
use std::marker::{Brand, Model};
use std::sync::ledger::Blank;

/// The polynomials in some variables. Its elements share one store of monomials, so that a
/// polynomial is made of many others with no store for each.
pub struct Ring {
    vars: Vars,
    monos: Monos,
}

/// By hand, so that a caller's proof sees one call where a ring is let go.
impl Drop for Ring {
    fn drop(self) {
        let Ring { vars: _, monos: _ } = self;
    }
}

impl Model for Ring {
    ghost use Rattle.std.specs.List.Sorted.{IsStrictlySortedBy};
    ghost use Rattle.geo_poly.specs.Rings.{RingValue};
    ghost use Rattle.geo_poly.specs.Variables.{var_cmp};

    ghost Value = { RingValue };

    ghost view = { λ ring. record { vars = ring.vars; store = ring.monos } };

    ghost invariant = { λ ring. IsStrictlySortedBy var_cmp ring.vars };
}

/// A polynomial of a ring.
#[derive(Drop)]
pub struct Element {
    list: Vec<Indexed>,
}

impl Model for Element {
    ghost use Rattle.geo_poly.specs.Shared.{Indices};

    ghost Value = { Indices };

    ghost view = { λ element. element.list.items };
}

impl Ring {
    /// The ring in these variables.
    pub fn new(alloc: Global, vars: Vars) -> Result<Ring, NoMemory>
        requires { IsStrictlySortedBy var_cmp vars }
        ensures { IfOk result (λ ring. ring.vars ≡ vars) }
    {
        let monos = Monos::with_capacity(alloc, likely_links(&vars))?;
        Ok(Ring { vars, monos })
    }

    /// The element that is `n` times the variable, where `n` is not 0.
    pub fn multiple(&mut self, alloc: Global, n: i128, v: Var) -> Result<Element, NoMemory>
        requires known { Contains self.old.vars v }
        requires nonzero { unsigned_abs n ≢ 0 }
        requires fits { unsigned_abs n < 2 ^ 127 }
        ensures element { IfOk result (IsElementFor self.new (((v, 1) ∷ [], n) ∷ [])) }
        ensures grows { Grows self.old self.new }
    {
        let place = place_near(self.vars.as_slice(), v, 0);
        let one = self.monos.one();
        let id = self.monos.mono(place, 1, one)?;
        let mut list = Vec::new(alloc);
        list.push((id, n))?;
        Ok(Element { list })
    }

    /// The element that is the constant `n`.
    pub fn constant(&self, alloc: Global, n: i128) -> Result<Element, NoMemory>
        requires { unsigned_abs n < 2 ^ 127 }
        ensures { IfOk result (IsElementFor self.now (constant_of n)) }
    {
        let mut list = Vec::new(alloc);
        if n != 0 {
            list.push((self.monos.one(), n))?;
        }
        Ok(Element { list })
    }

    /// The element that is the polynomial.
    pub fn element(&mut self, alloc: Global, poly: &Poly) -> Result<Element, NoMemory>
        requires known { AllVariables (Contains self.old.vars) poly.now }
        ensures element { IfOk result (IsElementFor self.new poly.now) }
        ensures grows { Grows self.old self.new }
    {
        let list = moved(alloc, &mut self.monos, self.vars.as_slice(), &poly.shared())?;
        Ok(Element { list })
    }

    /// The sum, which fits.
    pub fn sum(&self, alloc: Global, left: &Element, right: &Element) -> Result<Element, NoMemory>
        requires left { IsElement self.now left.now }
        requires right { IsElement self.now right.now }
        requires fits { norm_of (polynomial_in self.now left.now)
            + norm_of (polynomial_in self.now right.now) < 2 ^ 127 }
        ensures { IfOk result (IsElementFor self.now (sum_of
            (polynomial_in self.now left.now) (polynomial_in self.now right.now))) }
    {
        let list = merged_lists(
            alloc,
            &self.monos,
            self.vars.as_slice(),
            &left.list,
            &right.list,
        )?;
        Ok(Element { list })
    }

    /// The difference, which fits.
    pub fn difference(
        &self,
        alloc: Global,
        left: &Element,
        right: &Element,
    ) -> Result<Element, NoMemory>
        requires left { IsElement self.now left.now }
        requires right { IsElement self.now right.now }
        requires fits { norm_of (polynomial_in self.now left.now)
            + norm_of (polynomial_in self.now right.now) < 2 ^ 127 }
        ensures { IfOk result (IsElementFor self.now (difference_of
            (polynomial_in self.now left.now) (polynomial_in self.now right.now))) }
    {
        let opposite = self.opposite(alloc, right)?;
        self.sum(alloc, left, &opposite)
    }

    /// The element with the other sign.
    pub fn opposite(&self, alloc: Global, element: &Element) -> Result<Element, NoMemory>
        requires { IsElement self.now element.now }
        ensures { IfOk result (IsElementFor self.now (negated (polynomial_in self.now element.now))) }
    {
        let shared = Shared {
            vars: self.vars.as_slice(),
            monos: &self.monos,
            list: element.list.as_slice(),
        };
        let list = negated_list(alloc, &shared)?;
        Ok(Element { list })
    }

    /// The product, which fits.
    pub fn product(
        &mut self,
        alloc: Global,
        left: &Element,
        right: &Element,
    ) -> Result<Element, NoMemory>
        requires left { IsElement self.old left.now }
        requires right { IsElement self.old right.now }
        requires fits { CanMultiply (polynomial_in self.old left.now)
            (polynomial_in self.old right.now) }
        ensures element { IfOk result (IsElementFor self.new (product_of
            (polynomial_in self.old left.now) (polynomial_in self.old right.now))) }
        ensures grows { Grows self.old self.new }
    {
        let list = product_list::<Brand>(
            alloc,
            &mut self.monos,
            self.vars.as_slice(),
            &left.list,
            &right.list,
            Blank::new(1),
        )?;
        Ok(Element { list })
    }

    /// The polynomial that an element is. The ring is spent.
    pub fn into_poly(self, alloc: Global, element: Element) -> Result<Poly, NoMemory>
        requires { IsElement self element }
        ensures { IfOk result (λ p. p ≡ polynomial_in self element) }
    {
        let Ring { vars, monos } = self;
        let Element { list } = element;
        Poly::compact(alloc, vars, monos, list)
    }
}

/// Room for the links of a ring: what rows mostly need. Nothing rests on it but time.
fn likely_links(vars: &Vars) -> u64 {
    (vars.as_slice().len() as u64).saturating_mul(2)
}
