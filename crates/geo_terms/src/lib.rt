//! Terms shared by index, and the steps of a construction: numbers made of parameters and of the
//! quantities of points, each term standing once in its store; and how each point of a figure is
//! made.
#![tactic(auto)]

pub mod laws;
mod nodes;
mod steps;
mod stores;

pub use nodes::Node;
pub use steps::{Step, Steps};
pub use stores::Terms;
