//! The numbers of steps, in the store of the steps.

ghost use Rattle.std.specs.Prelude.{◌≡◌, ◌<◌, [], IfOk, OnOk, length};
ghost use Rattle.geo_terms.specs.Stores.{HasChildrenBelow, HasShortInteger, Store, node_tree};
ghost use Rattle.geo_terms.specs.Stores.{trees_of};
ghost use Rattle.geo_program.specs.Forms.{IsStored};
ghost use Rattle.geo_lowering.specs.Counting.{next_number};
ghost use Rattle.geo_lowering.specs.Inner.Growing.{KeepsTerms};
ghost use Rattle.geo_lowering.specs.Lowering.{Layout, one_tree};
ghost use Rattle.geo_lowering.specs.Parts.{layout_at};
ghost use Rattle.geo_lowering.specs.Inner.Renaming.{AreRenamed, item_at};
ghost use Rattle.geo_lowering.specs.Inner.StepNumbers.{AreFractions, IsTerm, own_number};
ghost use Rattle.geo_lowering.specs.Inner.StepNumbers.{second_number_tree};
ghost use Rattle.geo_terms.specs.Trees.{division};

use crate::layouts::Places;
use geo_points::{NoMemory, TermId};
use geo_program::Command;
use geo_terms::{Node, Steps};

/// The numbers 1, 1/2 and 2/3.
#[derive(Clone, Copy, Debug)]
pub struct Fractions {
    /// 1.
    pub one: TermId,
    /// 1/2.
    pub half: TermId,
    /// 2/3.
    pub two_thirds: TermId,
}

/// The index of a node. A store with no room left is answered by NoMemory.
pub fn intern(steps: &mut Steps, node: Node) -> Result<TermId, NoMemory>
    requires children { HasChildrenBelow (length steps.old.nodes) node }
    requires integer { HasShortInteger node }
    ensures keeps { KeepsTerms steps.old steps.new }
    ensures params { steps.new.params ≡ steps.old.params }
    ensures term { IfOk result
        (λ id. IsTerm steps.new.nodes (node_tree (trees_of steps.old.nodes) node) id) }
{
    if steps.look().len() == u32::MAX {
        return Err(NoMemory);
    }
    steps.intern(node)
}

// The quotient of two nodes without parts.
fn intern_quotient(steps: &mut Steps, above: Node, below: Node) -> Result<TermId, NoMemory>
    requires above { HasChildrenBelow 0 above }
    requires below { HasChildrenBelow 0 below }
    requires above_short { HasShortInteger above }
    requires below_short { HasShortInteger below }
    ensures keeps { KeepsTerms steps.old steps.new }
    ensures params { steps.new.params ≡ steps.old.params }
    ensures term { IfOk result (λ id.
        IsTerm steps.new.nodes (division (node_tree [] above) (node_tree [] below)) id) }
{
    let above = intern(steps, above)?;
    let below = intern(steps, below)?;
    intern(steps, Node::Div(above, below))
}

/// The numbers 1, 1/2 and 2/3.
pub fn intern_fractions(steps: &mut Steps) -> Result<Fractions, NoMemory>
    ensures keeps { KeepsTerms steps.old steps.new }
    ensures params { steps.new.params ≡ steps.old.params }
    ensures fractions { IfOk result (λ f. AreFractions steps.new.nodes f) }
{
    let one = intern(steps, Node::Int(1))?;
    let half = intern_quotient(steps, Node::Int(1), Node::Int(2))?;
    let two_thirds = intern_quotient(steps, Node::Int(2), Node::Int(3))?;
    Ok(Fractions {
        one,
        half,
        two_thirds,
    })
}

// A renamed term; past the end 0.
fn term_at(terms: &[TermId], r: TermId) -> TermId
    ensures { result ≡ item_at terms.now r }
{
    match terms.get(r.0 as usize) {
        Some(term) => *term,
        None => TermId(0),
    }
}

/// The number of a command's step where it depends on the command, and else 1. A command that has a
/// number of its own takes a new parameter.
pub fn number_of(
    steps: &mut Steps,
    places: &Places,
    terms: &[TermId],
    one: TermId,
    command: &Command,
) -> Result<TermId, NoMemory>
    requires { steps.old.params < 4294967295 }
    ensures keeps { KeepsTerms steps.old steps.new }
    ensures params { OnOk result (steps.new.params ≡ next_number steps.old.params command.now) }
    ensures term { (source : Store)
        → AreRenamed (layout_at places.now) source steps.old.nodes terms.now
        → length terms.now ≡ length source → IsStored source command.now
        → IsTerm steps.old.nodes one_tree one
        → IfOk result (λ id. IsTerm steps.new.nodes
        (own_number (layout_at places.now) source steps.old.params command.now) id) }
{
    match *command {
        Command::Param => {
            steps.param();
            Ok(one)
        }
        Command::Online { .. } | Command::Oncircle { .. } => {
            let own = steps.param();
            intern(steps, Node::Param(own))
        }
        Command::Pratio { r, .. }
        | Command::Tratio { r, .. }
        | Command::Lratio { r, .. }
        | Command::Weights { r, .. } => Ok(term_at(terms, r)),
        Command::Inverse { p, o, a } => {
            let (p, o, a) = (places.point(p), places.point(o), places.point(a));
            intern_quotient(steps, Node::P(o, a, o), Node::P(o, p, o))
        }
        _ => Ok(one),
    }
}

/// The second number of `weights`, and else 1.
pub fn second_number(terms: &[TermId], one: TermId, command: &Command) -> TermId
    ensures { (l : Layout) (source nodes : Store) → AreRenamed l source nodes terms.now
        → length terms.now ≡ length source → IsStored source command.now
        → IsTerm nodes one_tree one → IsTerm nodes (second_number_tree l source command.now) result }
{
    match *command {
        Command::Weights { s, .. } => term_at(terms, s),
        _ => one,
    }
}
