//! The prover, the checker and the printer of proofs for programs in other languages: three calls
//! over bytes, each with a buffer of the caller's for the text that is due. A call keeps no pointer,
//! and hands out no memory.
#![tactic(auto)]

pub mod answers;
pub mod checking;
pub mod printing;
pub mod proving;
#[cfg(test)]
mod tests;
