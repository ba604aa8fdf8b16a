//! The prover's choice: the move, and the line, that it puts after a polynomial; and the lines of a log
//! behind its program: the chains of conditions and goals, the sample and the verdict, each handed on as
//! soon as it is made.
#![tactic(auto)]

mod chains;
mod choosing;
mod conditions;
mod cutting;
mod ending;
mod errors;
mod findings;
mod first;
mod frame;
mod goals;
mod highest;
mod known;
mod lines;
mod log_writer;
mod program_lines;
mod putting;
mod sample_variables;
mod size;
mod working;

pub use choosing::next_move;
pub use conditions::work_conditions;
pub use errors::ProveError;
pub use findings::Findings;
pub use frame::Frame;
pub use lines::{next_line, next_line_known};
pub use log_writer::LogWriter;
pub use program_lines::write_first_lines;
pub use size::Size;
pub use working::{work, work_rest, write_impossible};
