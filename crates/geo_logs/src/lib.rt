//! Logs over lists of lines: which lists are accepted, what an accepted list proves, and which list
//! the prover writes; and the walk over such a list, line by line.
#![tactic(auto)]

mod known_variable;
pub mod laws;
mod moves;
mod walk;

pub use known_variable::only_variable;
pub use moves::{Move, Replacement, RowList};
pub use walk::{DueLine, Task, Walk};
