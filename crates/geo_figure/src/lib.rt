//! Placed points as a drawing: a picture of characters, and then the points as text.
#![tactic(auto)]

mod bounds;
mod cells;
mod drawing;
mod errors;
pub mod laws;
mod picture;

pub use drawing::draw;
pub use errors::DrawError;
