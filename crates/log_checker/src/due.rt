//! Where a log stands behind the lines of its program.

use geo_points::TermId;
use geo_poly::{Poly, Var};
use proof_log::Verdict;

/// A chain, by the number of its condition or goal, from 1.
#[derive(Clone, Copy, Debug, PartialEq, Eq)]
pub(crate) enum Task {
    /// That of a condition.
    Condition(u32),
    /// That of a goal.
    Goal(u32),
}

/// What is due next.
#[derive(Drop)]
pub(crate) enum Due {
    /// The header of the condition at this index.
    Condition(usize),
    /// The header of the goal at this index.
    Goal(usize),
    /// The start of the chain of this task, which is the numerator of this term.
    Start {
        task: Task,
        term: TermId,
    },
    /// A line of the chain, after this polynomial.
    Step {
        task: Task,
        /// The variable that the start of the chain is a multiple of, where there is one.
        own: Option<Var>,
        poly: Poly,
    },
    /// A sample, before this verdict.
    Sample(Verdict),
    /// This verdict.
    Verdict(Verdict),
    /// Nothing: this verdict was the last line.
    Nothing(Verdict),
}
