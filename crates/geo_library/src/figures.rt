//! What chains over the citing program may divide by.

ghost use Rattle.std.specs.Prelude.{◌≡◌, ◌<◌, IfOk, MatchBool, length};
ghost use Rattle.std.specs.List.{AllByRecursion};
ghost use Rattle.std.specs.Option.{option_to_list};
ghost use Rattle.geo_library.specs.Inner.Knowing.{AreKnown, IsKnownBy, IsReadyItem, TellsText};
ghost use Rattle.geo_library.specs.Inner.Knowing.{node_variable};

use crate::inputs::behind;
use geo_conditions::Item;
use geo_points::NoMemory;
use geo_poly::lists::Vars;
use geo_poly::{Var, canon_p, canon_s};
use geo_terms::{Node, Steps};
use std::alloc::Global;

/// The variables in the starts of the conditions `different` and `not_collinear`.
pub fn known_variables(alloc: Global, steps: &Steps, items: &[Item]) -> Result<Vars, NoMemory>
    requires { AllByRecursion (IsReadyItem steps.now.nodes) items.now }
    ensures { IfOk result (λ vars. AreKnown steps.now.nodes items.now vars) }
{
    let mut vars = Vec::new(alloc);
    for item in items {
        if let Some(variable) = known_by(steps, item) {
            vars.push(variable)?;
        }
    }
    Ok(Vars { items: vars })
}

/// The variable that the condition makes known, if it does.
fn known_by(steps: &Steps, item: &Item) -> Option<Var>
    requires { IsReadyItem steps.now.nodes item.now }
    ensures { IsKnownBy steps.now.nodes item.now (option_to_list result) }
{
    // `len` also says that the store is valid.
    let _ = steps.look().len();
    if tells_quantity(&item.text.bytes) {
        variable_of(steps.look().node(item.term))
    } else {
        None
    }
}

/// Whether the text of a condition says that a single quantity is not 0.
fn tells_quantity(text: &[u8]) -> bool
    ensures { MatchBool result (TellsText text.now) (TellsText text.now → ⊥) }
{
    match behind(text, b"different ") {
        Some(_) => true,
        None => match behind(text, b"not_collinear ") {
            Some(_) => true,
            None => false,
        },
    }
}

/// The variable of a quantity, if it is no number.
fn variable_of(node: Node) -> Option<Var>
    ensures { result ≡ node_variable node }
{
    match node {
        Node::P(a, b, c) => canon_p(a, b, c).var,
        Node::S(a, b, c) => canon_s(a, b, c).var,
        _ => None,
    }
}
