//! What a polynomial is made of.

use crate::variables::Var;
use mono_store::{MonoId, Monos};

/// The index of a monomial in a store, and its coefficient.
pub(crate) type Indexed = (MonoId, i128);

/// The first power of a monomial, and what is behind it.
#[derive(Clone, Copy)]
pub struct FirstPower {
    /// The variable.
    pub var: Var,
    /// Its exponent.
    pub exponent: u32,
    /// The index of the rest of the monomial.
    pub rest: MonoId,
    /// The number of the variable.
    pub number: u64,
}

/// What a polynomial is made of. One call tells all of it, since contracts see a polynomial as its
/// terms alone.
#[derive(Clone, Copy)]
pub struct Shared<'a> {
    /// The variables in order, in which every variable that occurs stands. The number of a variable
    /// is its place.
    pub vars: &'a [Var],
    /// The store of the monomials.
    pub monos: &'a Monos,
    /// The index of each monomial with its coefficient, in the order of the polynomial.
    pub list: &'a [(MonoId, i128)],
}
