//! The items of the lists of conditions and of goals.

use geo_base::Text;
use geo_points::TermId;
use std::marker::Model;

/// A condition or a goal of a program.
#[derive(Debug, Drop)]
pub struct Item {
    /// Its text, which has no line feed. A goal's is the statement's without `prove` and the braces
    /// around it.
    pub text: Text,
    /// Its term in the store of the lowered steps. A condition holds where its term is not 0, a
    /// goal where it is 0.
    pub term: TermId,
    /// The line of the canonical program that gives it first, counted from 1. A goal has the line
    /// of `prove`.
    pub line: u64,
}

/// The conditions of a program, each once, in the order in which its lines give them. Contracts see
/// the list.
#[derive(Debug, Drop)]
pub struct Conditions {
    /// The items.
    pub items: Vec<Item>,
}

impl Model for Conditions {
    ghost use Rattle.std.specs.Prelude.{List};
    ghost use Rattle.geo_conditions.specs.declared.items.Item.{Item};

    ghost Value = { List Item };

    ghost view = { λ conditions. conditions.items.items };
}

/// The goals of a program, each once: those of its ratios, and then the statement. Contracts see
/// the list.
#[derive(Debug, Drop)]
pub struct Goals {
    /// The items.
    pub items: Vec<Item>,
}

impl Model for Goals {
    ghost use Rattle.std.specs.Prelude.{List};
    ghost use Rattle.geo_conditions.specs.declared.items.Item.{Item};

    ghost Value = { List Item };

    ghost view = { λ goals. goals.items.items };
}
