//! The lines of a log, both ways: each line that may be written has a text, and from its text it
//! is read back.
#![tactic(auto)]

mod bounds;
mod digits;
mod errors;
mod kept_texts;
pub mod laws;
mod leads;
mod line_reader;
mod log;
mod names;
mod number_texts;
mod reader;
mod steps;
mod terms;
mod writer;

pub use bounds::length_bound;
pub use errors::LineError;
pub use line_reader::read_line;
pub use log::{Line, Verdict};
pub use names::{before_name, read_name};
pub use writer::write_line;
