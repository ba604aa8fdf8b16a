//! A program at given values: the one placement that they fix, reckoned exactly, and whether the
//! statement holds in it.
#![tactic(auto)]

mod conditions;
mod errors;
mod evaluation;
pub mod laws;
mod making;
mod naming;
mod placed;
mod placing;
mod positions;
mod quantities;
mod results;
mod sketch;
mod spots;
mod texts;
mod triples;
mod values;

pub use errors::PlaceError;
pub use placed::{At, Ints, Placed, Points};
pub use placing::place;
pub use results::{difference_of, opposite_of, product_of, quotient_of, sum_of};
pub use texts::placed_text;
pub use values::wanted;
