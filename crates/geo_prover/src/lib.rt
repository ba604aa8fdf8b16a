//! The prover: writes the defined log of a program, line by line.
#![tactic(auto)]

mod bench;
pub mod laws;
mod proving;
mod summary;

pub use bench::bench_program;
pub use geo_chain::ProveError;
pub use proving::prove;
pub use summary::Summary;
