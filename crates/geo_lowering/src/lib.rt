//! The commands of the language over placements, and their lowering to the elementary steps of a
//! construction with hidden points: what each command says of the points that it names, its
//! conditions, its steps, and that the two agree.
#![tactic(auto)]

pub mod laws;
mod layouts;
mod lists;
mod lowering;
mod places;
mod pushing;
mod renaming;
mod step_lists;
mod step_numbers;
mod version;

pub use lists::{After, Lines, Params, Points};
pub use lowering::{Lowered, lower, lower_old};
pub use version::Version;
