//! What stands for variables when they are replaced.

use crate::poly::Poly;
use crate::variables::Var;

/// A polynomial with numbers that bound its size, which are known before it is multiplied out. They
/// are promised only where a contract says `IsBounded`.
#[derive(Drop)]
pub struct Piece {
    /// The polynomial.
    pub poly: Poly,
    /// At least 1 and at least the norm.
    pub weight: u128,
    /// At least the number of monomials, and at most the weight.
    pub count: u128,
    /// At least the degree.
    pub degree: u128,
}

/// What stands for a variable: the variable times the denominator to the power is the numerator. Of
/// several rows of one variable the first counts.
#[derive(Drop)]
pub struct Row {
    /// The variable that is replaced.
    pub var: Var,
    /// The power of the denominator, at most 2.
    pub power: u32,
    /// The numerator.
    pub num: Piece,
}
