//! Lists of keys with amounts, in the order of the keys and without zeros. The definitions and the
//! lemmas are for the proofs of the crates above.
#![tactic(auto)]

pub mod laws;
