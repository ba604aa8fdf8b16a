//! Lists of monomials with coefficients, of which polynomials are made.

ghost use Rattle.std.specs.Prelude.{◌≡◌, ◌++◌, IfOk, OnOk};

use crate::monomials::Monomial;
use geo_points::NoMemory;
use std::alloc::Global;

/// A monomial and its coefficient.
pub(crate) type Term = (Monomial, i128);

/// A term with the same monomial and coefficient.
pub(crate) fn copy_term(alloc: Global, term: &Term) -> Result<Term, NoMemory>
    ensures { IfOk result (λ t. t ≡ term.now) }
{
    Ok((term.0.copy(alloc)?, term.1))
}

/// Adds copies of the terms at the end.
pub(crate) fn append_copies(
    alloc: Global,
    to: &mut Vec<Term>,
    from: &[Term],
) -> Result<(), NoMemory>
    ensures { OnOk result (to.new.items ≡ to.old.items ++ from.now) }
{
    for term in from {
        to.push(copy_term(alloc, term)?)?;
    }
    Ok(())
}
