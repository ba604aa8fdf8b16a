//! Linear terms, which have no product and no quotient, multiplied out in one ring.

ghost use Rattle.std.specs.Prelude.{◌≡◌, ◌<◌, Contains, IfOk, IfSome, length};
ghost use Rattle.fraction_poly.specs.Inner.Numerators.{IsLinear, IsNumerator};
ghost use Rattle.fraction_poly.specs.Inner.Parts.{CanMultiplyOut};
ghost use Rattle.fraction_poly.specs.MultipliedOut.{multiplied_out, whole_fraction};
ghost use Rattle.geo_poly.specs.Rings.{Grows};
ghost use Rattle.geo_terms.specs.Stores.{IsStore, tree_of};

use crate::parts::canonical;
use crate::term_variables::linear_variables;
use geo_points::{NoMemory, TermId};
use geo_poly::{Element, Poly, Ring, Var, canon_p, canon_r, canon_s};
use geo_terms::{Node, Terms};
use std::alloc::Global;

/// The numerator of a term that has no product and no quotient: the denominator is 1 then. `None`
/// for other terms, and where a node with parts stands in it more than once.
pub(crate) fn linear_numerator(
    alloc: Global,
    terms: &Terms,
    id: TermId,
) -> Result<Option<Poly>, NoMemory>
    requires stored { id.0 < length terms.now }
    requires valid { IsStore terms.now }
    requires fits { CanMultiplyOut (tree_of terms.now id) }
    ensures { IfOk result (λ o. IfSome o
        (λ p. whole_fraction p ≡ multiplied_out (tree_of terms.now id))) }
{
    let Some(variables) = linear_variables(alloc, terms, id)? else {
        return Ok(None);
    };
    let mut ring = Ring::new(alloc, variables)?;
    let numerator = numerator(alloc, &mut ring, terms, id)?;
    Ok(Some(ring.into_poly(alloc, numerator)?))
}

/// The numerator of a linear term, in a ring that has its variables.
fn numerator(alloc: Global, ring: &mut Ring, terms: &Terms, id: TermId) -> Result<Element, NoMemory>
    requires stored { id.0 < length terms.now }
    requires valid { IsStore terms.now }
    requires fits { CanMultiplyOut (tree_of terms.now id) }
    requires linear { IsLinear (Contains ring.old.vars) (tree_of terms.now id) }
    ensures numerator { IfOk result (IsNumerator ring.new (tree_of terms.now id)) }
    ensures grows { Grows ring.old ring.new }
{
    match terms.node(id) {
        Node::Int(n) => ring.constant(alloc, n),
        Node::Param(t) => ring.multiple(alloc, 1, Var::T(t)),
        Node::S(a, b, c) => canonical(alloc, ring, canon_s(a, b, c)),
        Node::P(a, b, c) => canonical(alloc, ring, canon_p(a, b, c)),
        Node::R(a, b, c, d) => canonical(alloc, ring, canon_r(a, b, c, d)),
        Node::Neg(e) => {
            let part = numerator(alloc, ring, terms, e)?;
            ring.opposite(alloc, &part)
        }
        Node::Add(e, f) => {
            let left = numerator(alloc, ring, terms, e)?;
            let right = numerator(alloc, ring, terms, f)?;
            ring.sum(alloc, &left, &right)
        }
        Node::Sub(e, f) => {
            let left = numerator(alloc, ring, terms, e)?;
            let right = numerator(alloc, ring, terms, f)?;
            ring.difference(alloc, &left, &right)
        }
        Node::Mul(..) => unreachable!(),
        Node::Div(..) => unreachable!(),
    }
}
