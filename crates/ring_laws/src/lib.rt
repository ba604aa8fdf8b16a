//! Commutative rings up to an equivalence of their own, and a solver that proves identities in them
//! by computation. The definitions and the lemmas are for the proofs of the crates above.
#![tactic(auto)]

pub mod theorems;
