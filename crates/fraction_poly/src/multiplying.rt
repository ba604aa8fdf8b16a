//! The numerator and the denominator of a term.

ghost use Rattle.std.specs.Prelude.{◌≡◌, ◌+◌, ◌<◌, ◌≤◌, IfNone, IfOk, IfSome, IsTrue, Some, length};
ghost use Rattle.std.specs.Prelude.{slice_get};
ghost use Rattle.fraction_poly.specs.Measures.{HasRoom, numbers_of};
ghost use Rattle.fraction_poly.specs.MultipliedOut.{multiplied_out};
ghost use Rattle.fraction_poly.specs.Inner.Charges.{charge_below, own_charge};
ghost use Rattle.fraction_poly.specs.Inner.Parts.{CanMultiplyOut, DoAllFit, HasParts, IsPart};
ghost use Rattle.geo_points.specs.declared.ids.TermId.{TermId};
ghost use Rattle.geo_terms.specs.Stores.{IsStore, tree_of};

use crate::cutting::cut_out;
use crate::fractions::{
    Fraction, area, difference, negation, product, pythagoras, quotient, ratio, sum, whole,
};
use crate::numerators::linear_numerator;
use crate::visits::is_leaf;
use geo_points::{NoMemory, TermId};
use geo_poly::{Poly, Ticks, Var};
use geo_terms::{Node, Terms};
use std::alloc::Global;
use std::marker::Brand;
use std::sync::ledger::{Blank, Ledger};

/// The numerator and the denominator of the term at an index. Each node that the term reaches is
/// multiplied out once, however often the term has it, and no other is looked at. Each product of
/// monomials ticks.
pub fn multiply_out<L: Ledger>(
    alloc: Global,
    terms: &Terms,
    id: TermId,
    ticks: &mut Ticks<L>,
) -> Result<(Poly, Poly), NoMemory>
    requires stored { id.0 < length terms.now }
    requires room { HasRoom (tree_of terms.now id) }
    ensures fraction { IfOk result (λ polys. polys ≡ multiplied_out (tree_of terms.now id)) }
    ensures ticks { ticks.new ≤ ticks.old + (numbers_of (tree_of terms.now id)).charge }
{
    // From here on it is known that parts stand before their nodes.
    prove!(id.0 < terms.len());
    if let Some(fraction) = small_fraction(alloc, terms, id, ticks)? {
        return Ok(fraction);
    }
    if let Some(numerator) = linear_numerator(alloc, terms, id)? {
        return whole(alloc, numerator);
    }
    let (cut, place) = cut_out(alloc, terms, id)?;
    fraction_of(alloc, &cut, place, ticks)
}

/// What `multiply_out` answers, for callers that want no count of the work.
pub fn multiply_out_uncounted(
    alloc: Global,
    terms: &Terms,
    id: TermId,
) -> Result<(Poly, Poly), NoMemory>
    requires stored { id.0 < length terms.now }
    requires room { HasRoom (tree_of terms.now id) }
    ensures { IfOk result (λ polys. polys ≡ multiplied_out (tree_of terms.now id)) }
{
    multiply_out_in::<Brand>(alloc, terms, id, Blank::new(1))
}

/// The same with a counter of its own.
fn multiply_out_in<L: Ledger>(
    alloc: Global,
    terms: &Terms,
    id: TermId,
    blank: Blank,
) -> Result<(Poly, Poly), NoMemory>
    requires name { blank.name ≡ L.name }
    requires parts { blank.parts ≡ L.parts }
    requires some { 0 < blank.parts }
    requires stored { id.0 < length terms.now }
    requires room { HasRoom (tree_of terms.now id) }
    ensures { IfOk result (λ polys. polys ≡ multiplied_out (tree_of terms.now id)) }
{
    let mut ticks = Ticks::<L>::new(blank);
    multiply_out(alloc, terms, id, &mut ticks)
}

/// The fraction of a leaf or of its opposite, and `None` for all other terms.
fn small_fraction<L: Ledger>(
    alloc: Global,
    terms: &Terms,
    id: TermId,
    ticks: &mut Ticks<L>,
) -> Result<Option<Fraction>, NoMemory>
    requires stored { id.0 < length terms.now }
    requires valid { IsStore terms.now }
    requires fits { CanMultiplyOut (tree_of terms.now id) }
    ensures fraction { IfOk result
        (λ o. IfSome o (λ f. f ≡ multiplied_out (tree_of terms.now id))) }
    ensures none { IfOk result (λ o. IfNone o (ticks.new ≡ ticks.old)) }
    ensures ticks { ticks.new ≤ ticks.old + (numbers_of (tree_of terms.now id)).charge }
{
    match terms.node(id) {
        Node::Neg(e) => match leaf_fraction(alloc, terms, e, ticks)? {
            Some(leaf) => Ok(Some(negation(alloc, &leaf)?)),
            None => Ok(None),
        },
        _ => leaf_fraction(alloc, terms, id, ticks),
    }
}

/// The fraction of a leaf, and `None` for a node that has parts.
fn leaf_fraction<L: Ledger>(
    alloc: Global,
    terms: &Terms,
    id: TermId,
    ticks: &mut Ticks<L>,
) -> Result<Option<Fraction>, NoMemory>
    requires stored { id.0 < length terms.now }
    requires valid { IsStore terms.now }
    requires fits { CanMultiplyOut (tree_of terms.now id) }
    ensures fraction { IfOk result
        (λ o. IfSome o (λ f. f ≡ multiplied_out (tree_of terms.now id))) }
    ensures none { IfOk result (λ o. IfNone o (ticks.new ≡ ticks.old)) }
    ensures ticks { ticks.new ≤ ticks.old + own_charge (tree_of terms.now id) }
{
    if !is_leaf(terms.node(id)) {
        return Ok(None);
    }
    Ok(Some(fraction(alloc, terms, &[], id, ticks)?))
}

/// The fraction of the term at an index, in a store whose terms may all be multiplied out: those up
/// to the term are.
fn fraction_of<L: Ledger>(
    alloc: Global,
    terms: &Terms,
    id: TermId,
    ticks: &mut Ticks<L>,
) -> Result<Fraction, NoMemory>
    requires stored { id.0 < length terms.now }
    requires fit { DoAllFit terms.now }
    ensures fraction { IfOk result (λ f. f ≡ multiplied_out (tree_of terms.now id)) }
    ensures ticks { ticks.new ≤ ticks.old + charge_below terms.now (id.0 + 1) }
{
    // From here on it is known that parts stand before their nodes.
    prove!(id.0 < terms.len());
    let mut parts = Vec::with_capacity(alloc, id.0 as usize)?;
    for i in 0..id.0 {
        parts.push(fraction(alloc, terms, &parts, TermId(i), ticks)?)?;
    }
    fraction(alloc, terms, &parts, id, ticks)
}

/// The fraction of the node at an index, over those of its parts.
fn fraction<L: Ledger>(
    alloc: Global,
    terms: &Terms,
    parts: &[Fraction],
    id: TermId,
    ticks: &mut Ticks<L>,
) -> Result<Fraction, NoMemory>
    requires stored { id.0 < length terms.now }
    requires valid { IsStore terms.now }
    requires fits { CanMultiplyOut (tree_of terms.now id) }
    requires parts { HasParts terms.now parts.now id }
    ensures fraction { IfOk result (λ f. f ≡ multiplied_out (tree_of terms.now id)) }
    ensures ticks { ticks.new ≤ ticks.old + own_charge (tree_of terms.now id) }
{
    match terms.node(id) {
        Node::Int(n) => whole(alloc, Poly::constant(alloc, n)?),
        Node::Param(t) => whole(alloc, Poly::var(alloc, Var::T(t))?),
        Node::S(a, b, c) => whole(alloc, area(alloc, a, b, c)?),
        Node::P(a, b, c) => whole(alloc, pythagoras(alloc, a, b, c)?),
        Node::R(a, b, c, d) => whole(alloc, ratio(alloc, a, b, c, d)?),
        Node::Neg(e) => negation(alloc, part(parts, e)),
        Node::Add(e, f) => sum(alloc, part(parts, e), part(parts, f), ticks),
        Node::Sub(e, f) => difference(alloc, part(parts, e), part(parts, f), ticks),
        Node::Mul(e, f) => product(alloc, part(parts, e), part(parts, f), ticks),
        Node::Div(e, f) => quotient(alloc, part(parts, e), part(parts, f), ticks),
    }
}

/// The fraction of a part.
fn part(parts: &[Fraction], id: TermId) -> &Fraction
    requires { id.0 < length parts.now }
    ensures { slice_get parts.now id.0 ≡ Some result.now }
{
    &parts[id.0 as usize]
}
