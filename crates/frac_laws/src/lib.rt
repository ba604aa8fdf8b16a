//! Fractions of whole numbers of 128 bits, in lowest terms: sums and products are exact, or refused
//! where a number that they need is too large.
#![tactic(auto)]

mod arithmetic;
mod divisors;
mod frac;
mod inverses;
pub mod laws;

pub use divisors::gcd;
pub use frac::{Frac, FracTooLarge};
