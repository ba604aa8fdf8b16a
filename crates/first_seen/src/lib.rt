//! Keys in the order in which they came, each once, and found by their own order: nothing is hashed,
//! so nobody can pick keys that are slow to find.
#![tactic(auto)]

mod first_seen;

pub use first_seen::FirstSeen;
