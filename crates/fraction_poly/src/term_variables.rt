//! The variables of linear terms.

ghost use Rattle.std.specs.Prelude.{◌<◌, Contains, IfOk, IfSome, IsTrue, List, OnOk, length};
ghost use Rattle.std.specs.List.Sorted.{IsStrictlySortedBy};
ghost use Rattle.fraction_poly.specs.Inner.Numerators.{IsLinear};
ghost use Rattle.geo_poly.specs.declared.variables.Var.{Var};
ghost use Rattle.geo_poly.specs.Variables.{var_cmp};
ghost use Rattle.geo_terms.specs.Stores.{IsStore, node_tree, tree_of};
ghost use Rattle.geo_terms.specs.Trees.{Tree};

use crate::sorted_variables::{in_order, push, push_canon};
use crate::visits::{DEEPEST, Visits};
use geo_points::{NoMemory, TermId};
use geo_poly::lists::Vars;
use geo_poly::{Var, canon_p, canon_r, canon_s};
use geo_terms::{Node, Terms};
use std::alloc::Global;

/// The variables of all leaves of a term, in order and each once, where it has no product and no
/// quotient, and each node with parts once.
pub(crate) fn linear_variables(
    alloc: Global,
    terms: &Terms,
    id: TermId,
) -> Result<Option<Vars>, NoMemory>
    requires stored { id.0 < length terms.now }
    requires valid { IsStore terms.now }
    ensures rising { IfOk result (λ o. IfSome o (IsStrictlySortedBy var_cmp)) }
    ensures linear { IfOk result (λ o. IfSome o
        (λ vs. IsLinear (Contains vs) (tree_of terms.now id))) }
{
    let mut visits = Visits::from(alloc, id);
    let mut variables = Vec::new(alloc);
    if !push_linear(&mut variables, &mut visits, terms, id, DEEPEST)? {
        return Ok(None);
    }
    Ok(Some(in_order(variables)))
}

/// Adds the variables of a term. `false` where it has a product or a quotient, is deeper than that,
/// or has a node that is visited again.
fn push_linear(
    variables: &mut Vec<Var>,
    visits: &mut Visits,
    terms: &Terms,
    id: TermId,
    depth: u32,
) -> Result<bool, NoMemory>
    requires stored { id.0 < length terms.now }
    requires valid { IsStore terms.now }
    ensures linear { IfOk result (λ linear. IsTrue linear
        → IsLinear (Contains variables.new.items) (tree_of terms.now id)) }
    ensures kept { OnOk result
        ((v : Var) → Contains variables.old.items v → Contains variables.new.items v) }
{
    if depth == 0 || visits.repeat(terms, id) {
        return Ok(false);
    }
    match terms.node(id) {
        Node::Neg(e) => push_linear(variables, visits, terms, e, depth - 1),
        Node::Add(e, f) | Node::Sub(e, f) => {
            if !push_linear(variables, visits, terms, e, depth - 1)? {
                return Ok(false);
            }
            push_linear(variables, visits, terms, f, depth - 1)
        }
        _ => push_leaf(variables, terms.node(id)),
    }
}

/// Adds the variable of a leaf, where it has one. `false` for a node that has parts.
fn push_leaf(variables: &mut Vec<Var>, node: Node) -> Result<bool, NoMemory>
    ensures linear { IfOk result (λ leaf. IsTrue leaf → (trees : List Tree)
        → IsLinear (Contains variables.new.items) (node_tree trees node)) }
    ensures kept { OnOk result
        ((v : Var) → Contains variables.old.items v → Contains variables.new.items v) }
{
    match node {
        Node::Int(_) => {}
        Node::Param(t) => push(variables, Var::T(t))?,
        Node::S(a, b, c) => push_canon(variables, canon_s(a, b, c))?,
        Node::P(a, b, c) => push_canon(variables, canon_p(a, b, c))?,
        Node::R(a, b, c, d) => push_canon(variables, canon_r(a, b, c, d))?,
        Node::Neg(_) | Node::Add(..) | Node::Sub(..) | Node::Mul(..) | Node::Div(..) => {
            return Ok(false);
        }
    }
    Ok(true)
}
