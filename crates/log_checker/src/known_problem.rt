//! A problem with what is known of its steps.

use elim_apply::KnownRows;
use geo_conditions::Problem;
use std::marker::Model;

/// A problem, with the numbers of its steps and the rows of the moves so far.
#[derive(Drop)]
pub(crate) struct KnownProblem {
    pub problem: Problem,
    pub numbers: KnownRows,
}

impl Model for KnownProblem {
    ghost use Rattle.geo_conditions.specs.declared.problem.Problem.{Problem as TheProblem};
    ghost use Rattle.elim_apply.specs.Kept.{AreKnownRows};

    ghost Value = { TheProblem };

    ghost view = { λ known. known.problem };

    ghost invariant = { λ known. AreKnownRows known.problem.steps known.numbers };
}
