//! Logs as proofs that a person reads: variables by the names of their points, each move with what
//! stands for each variable; how a call over bytes ends, and the texts that tell it.
#![tactic(auto)]

mod acceptance;
mod heads;
pub mod laws;
mod lines;
mod met;
mod moves;
mod name_list;
mod namer;
mod numbers;
mod pieces;
mod polynomials;
mod printer;
mod printing;
mod reading;
mod status;
mod verdict_texts;

pub use acceptance::accepted_text;
pub use printing::text;
pub use status::Status;
pub use verdict_texts::{push_numbered, push_verdict};
