//! The variables of a draft.

ghost use Rattle.std.specs.Prelude.{Contains, IfOk, IfSome, OnOk, Some, ◌≡◌};
ghost use Rattle.std.specs.List.Sorted.{IsStrictlySortedBy};
ghost use Rattle.fraction_poly.specs.Inner.Drafts.{AllLeaves, by_number};
ghost use Rattle.geo_poly.specs.declared.variables.Var.{Var};
ghost use Rattle.geo_poly.specs.PolynomialVariables.{AllVariables};
ghost use Rattle.geo_poly.specs.Variables.{var_cmp};

use crate::drafts::Draft;
use crate::sorted_variables::{in_order, push, push_all, push_canon};
use crate::step_numbers::StepNumber;
use geo_points::NoMemory;
use geo_poly::lists::Vars;
use geo_poly::{Poly, Var, canon_p, canon_r, canon_s};
use std::alloc::Global;

/// Most drafts have no more leaves.
const FEW_LEAVES: usize = 16;

impl Draft {
    /// The variables of its leaves, in order and each once.
    pub(crate) fn variables(
        &self,
        alloc: Global,
        first: &StepNumber,
        second: &StepNumber,
    ) -> Result<Vars, NoMemory>
        ensures rising { IfOk result (IsStrictlySortedBy var_cmp) }
        ensures known { IfOk result
            (λ vs. AllLeaves (Contains vs) (by_number first.now second.now) self.now) }
    {
        let mut variables = Vec::with_capacity(alloc, FEW_LEAVES)?;
        self.push_variables(&mut variables, first, second)?;
        Ok(in_order(variables))
    }

    /// Adds the variables of its leaves.
    fn push_variables(
        &self,
        variables: &mut Vec<Var>,
        first: &StepNumber,
        second: &StepNumber,
    ) -> Result<(), NoMemory>
        ensures known { OnOk result (AllLeaves (Contains variables.new.items)
            (by_number first.now second.now) self.now) }
        ensures kept { OnOk result
            ((v : Var) → Contains variables.old.items v → Contains variables.new.items v) }
    {
        match self {
            Draft::Integer(_) => Ok(()),
            Draft::Area(a, b, c) => push_canon(variables, canon_s(*a, *b, *c)),
            Draft::Pythagoras(a, b, c) => push_canon(variables, canon_p(*a, *b, *c)),
            Draft::Ratio(a, b, c, d) => push_canon(variables, canon_r(*a, *b, *c, *d)),
            Draft::Abscissa(a) => push(variables, Var::X(*a)),
            Draft::Ordinate(a) => push(variables, Var::Y(*a)),
            Draft::Numerator(k) => push_all_of(variables, &k.of(first, second).num.poly),
            Draft::Denominator(k) => push_all_of(variables, &k.of(first, second).den.poly),
            Draft::Combined(both) => {
                both.left.push_variables(variables, first, second)?;
                both.right.push_variables(variables, first, second)
            }
            Draft::Opposite(draft) => draft.push_variables(variables, first, second),
        }
    }
}

/// Adds the variables of a polynomial.
fn push_all_of(variables: &mut Vec<Var>, poly: &Poly) -> Result<(), NoMemory>
    ensures known { OnOk result (AllVariables (Contains variables.new.items) poly.now) }
    ensures kept { OnOk result
        ((v : Var) → Contains variables.old.items v → Contains variables.new.items v) }
{
    push_all(variables, poly.vars().as_slice())
}
