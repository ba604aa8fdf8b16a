//! How large a term's numerator and denominator may be.

ghost use Rattle.std.specs.Prelude.{◌≡◌, ◌<◌, IfOk, IfSome, length};
ghost use Rattle.fraction_poly.specs.Measures.{capped, numbers_of};
ghost use Rattle.geo_terms.specs.Stores.{IsStore, tree_of};

use crate::cutting::cut_out;
use crate::numbers::{Numbers, numbers_over};
use crate::store_numbers::StoreNumbers;
use crate::visits::{DEEPEST, Visits};
use geo_points::{NoMemory, TermId};
use geo_terms::{Node, Terms};
use std::alloc::Global;

/// The numbers of the term at an index. It takes time and memory for the nodes that the term
/// reaches, each once; of many terms of one store, ask `StoreNumbers`.
pub fn measure(alloc: Global, terms: &Terms, id: TermId) -> Result<Numbers, NoMemory>
    requires { id.0 < length terms.now }
    ensures { IfOk result (λ numbers. numbers ≡ capped (numbers_of (tree_of terms.now id))) }
{
    // From here on it is known that parts stand before their nodes.
    prove!(id.0 < terms.len());
    if let Some(numbers) = tree_numbers(&mut Visits::unmarked(alloc), terms, id, SHALLOW) {
        return Ok(numbers);
    }
    if let Some(numbers) = tree_numbers(&mut Visits::from(alloc, id), terms, id, DEEPEST) {
        return Ok(numbers);
    }
    let (cut, place) = cut_out(alloc, terms, id)?;
    Ok(StoreNumbers::new(alloc, &cut)?.numbers(place))
}

/// Terms that are no deeper are measured as trees, without an account of their nodes. Nothing rests
/// on it but time.
const SHALLOW: u32 = 3;

/// The numbers of a term that is no deeper than that, and in which no node is visited again.
fn tree_numbers(visits: &mut Visits, terms: &Terms, id: TermId, depth: u32) -> Option<Numbers>
    requires stored { id.0 < length terms.now }
    requires valid { IsStore terms.now }
    ensures { IfSome result (λ numbers. numbers ≡ capped (numbers_of (tree_of terms.now id))) }
{
    if depth == 0 || visits.repeat(terms, id) {
        return None;
    }
    match terms.node(id) {
        Node::Int(n) => Some(Numbers::of_integer(n)),
        Node::Param(_) | Node::S(..) | Node::P(..) | Node::R(..) => Some(Numbers::of_variable()),
        Node::Neg(e) => tree_numbers(visits, terms, e, depth - 1),
        Node::Add(e, f) | Node::Sub(e, f) | Node::Mul(e, f) | Node::Div(e, f) => {
            let left = tree_numbers(visits, terms, e, depth - 1)?;
            let right = tree_numbers(visits, terms, f, depth - 1)?;
            Some(numbers_over(terms.node(id), left, right))
        }
    }
}
