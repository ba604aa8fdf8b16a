//! Conditions, each listed once, and those that the terms of a program give.

ghost use Rattle.std.specs.Prelude.{◌≡◌, ◌∷◌, ◌++◌, [], List, OnErr, OnOk, if◌then◌else◌};
ghost use Rattle.geo_lowering.specs.Conditions.{divisor_conditions, expression_conditions, nonzero};
ghost use Rattle.geo_terms.specs.Stores.{IsStore, node_tree, tree_of};
ghost use Rattle.geo_terms.specs.Trees.{Tree};
ghost use Rattle.geo_conditions.specs.Inner.ConditionLists.{HasBraces, IsConditionList, IsKept};
ghost use Rattle.geo_conditions.specs.Inner.ConditionLists.{Lists, condition_of};
ghost use Rattle.geo_conditions.specs.Inner.ConditionLists.{IsSameList};
ghost use Rattle.geo_conditions.specs.Lists.{found_at};

use crate::conditions::{Condition, ListedCondition};
use crate::term_set::TermSet;
use first_seen::FirstSeen;
use geo_points::{NoMemory, TermId};
use geo_terms::{Node, Terms};
use std::alloc::Global;

/// The conditions that are listed so far, in order, and the terms whose conditions are all among
/// them.
#[derive(Drop)]
pub struct ConditionList {
    /// The conditions, with their lines.
    pub items: Vec<ListedCondition>,
    /// The same conditions, for look-ups.
    pub known: FirstSeen<Condition>,
    /// The terms that were walked.
    pub walked: TermSet,
}

// Whether the node is a number other than 0, which no divisor's condition speaks of.
fn is_nonzero_number(node: Node) -> bool
    ensures { (trees : List Tree) → divisor_conditions (node_tree trees node)
        ≡ (if result then [] else nonzero (node_tree trees node) ∷ []) }
{
    match node {
        Node::Int(n) => n != 0,
        _ => false,
    }
}

impl ConditionList {
    /// No conditions.
    pub fn new(alloc: Global) -> ConditionList
        ensures items { result.items.items ≡ [] }
        ensures known { result.known ≡ [] }
        ensures walked { result.walked ≡ [] }
    {
        ConditionList {
            items: Vec::new(alloc),
            known: FirstSeen::new(alloc),
            walked: TermSet::new(alloc),
        }
    }

    /// Lists a condition that this line gives, where it is not listed yet. The store is that of its
    /// term.
    pub fn add(&mut self, terms: &Terms, condition: Condition, line: u64) -> Result<(), NoMemory>
        requires list { IsConditionList terms.now self.old }
        requires kept { IsKept terms.now condition }
        ensures lists { OnOk result (Lists terms.now self.old self.new
            (found_at line (condition_of terms.now condition ∷ []))) }
        ensures same { OnErr result (IsSameList self.old self.new) }
    {
        self.items.reserve(1)?;
        if self.known.insert(condition)? {
            self.items.push(ListedCondition { condition, line })?;
        }
        Ok(())
    }

    // Lists that a divisor is not 0.
    fn list_divisor(&mut self, terms: &Terms, e: TermId, line: u64) -> Result<(), NoMemory>
        requires list { IsConditionList terms.now self.old }
        requires braces { HasBraces terms.now e }
        ensures { OnOk result (Lists terms.now self.old self.new
            (found_at line (divisor_conditions (tree_of terms.now e)))) }
    {
        if is_nonzero_number(terms.node(e)) {
            Ok(())
        } else {
            self.add(terms, Condition::Nonzero(e), line)
        }
    }

    /// Lists the conditions of an expression, from left to right and each after those of its parts.
    /// A term that was walked before gives no more. The calls stand at most as deep as braces do.
    #[cycle(expressions)]
    pub fn list_expression(&mut self, terms: &Terms, e: TermId, line: u64) -> Result<(), NoMemory>
        requires list { IsConditionList terms.now self.old }
        requires braces { HasBraces terms.now e }
        ensures { OnOk result (Lists terms.now self.old self.new
            (found_at line (expression_conditions (tree_of terms.now e)))) }
    {
        if self.walked.contains(e) {
            return Ok(());
        }
        self.list_parts(terms, e, line)?;
        self.walked.insert(e)?;
        Ok(())
    }

    // Lists the conditions of an expression that is not marked as walked.
    #[cycle(expressions)]
    fn list_parts(&mut self, terms: &Terms, e: TermId, line: u64) -> Result<(), NoMemory>
        requires list { IsConditionList terms.now self.old }
        requires braces { HasBraces terms.now e }
        ensures { OnOk result (Lists terms.now self.old self.new
            (found_at line (expression_conditions (tree_of terms.now e)))) }
    {
        match terms.node(e) {
            Node::R(_, _, c, d) => self.add(terms, Condition::Different { a: c, b: d }, line),
            Node::Neg(f) => self.list_expression(terms, f, line),
            Node::Add(f, g) => self.list_both(terms, f, g, line),
            Node::Sub(f, g) => self.list_both(terms, f, g, line),
            Node::Mul(f, g) => self.list_both(terms, f, g, line),
            Node::Div(f, g) => {
                self.list_both(terms, f, g, line)?;
                self.list_divisor(terms, g, line)
            }
            _ => Ok(()),
        }
    }

    /// Lists the conditions of two expressions, one after the other.
    #[cycle(expressions)]
    pub fn list_both(
        &mut self,
        terms: &Terms,
        e: TermId,
        f: TermId,
        line: u64,
    ) -> Result<(), NoMemory>
        requires list { IsConditionList terms.now self.old }
        requires first { HasBraces terms.now e }
        requires second { HasBraces terms.now f }
        ensures { OnOk result (Lists terms.now self.old self.new (found_at line
            (expression_conditions (tree_of terms.now e)
            ++ expression_conditions (tree_of terms.now f)))) }
    {
        self.list_expression(terms, e, line)?;
        self.list_expression(terms, f, line)
    }
}
