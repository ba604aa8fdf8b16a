//! Logs are judged line by line; and what the logs of a program prove of it: an accepted log with
//! Proved, False or Impossible, whoever wrote it, and the prover's own.
#![tactic(auto)]

mod accepted;
mod by_text;
mod chaining;
pub mod checked_laws;
mod checker;
mod checking;
mod cutting;
mod due;
mod ending;
mod errors;
mod evidence;
mod heading;
mod judging;
mod known_problem;
pub mod laws;
mod line_of;
mod moving;
mod passing;
mod program_lines;
mod reasons;
mod sampling;
mod starting;
mod state;
mod stops;
pub mod versions;
mod work;

pub use accepted::Accepted;
pub use checker::Checker;
pub use checking::check;
pub use errors::CheckError;
