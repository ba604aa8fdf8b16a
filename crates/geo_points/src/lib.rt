//! Points of the plane with rational coordinates, and the quantities of the area method on them:
//! the definitions on which all that is proved of geometry stands.
//!
//! A point is a triple of whole numbers and a number is a fraction, so the plane is the rational
//! one. The crate also has the small types that every crate above shares.
#![tactic(auto)]

mod ids;
pub mod laws;
mod memory;

pub use ids::{ParamId, PointId, TermId};
pub use memory::NoMemory;
