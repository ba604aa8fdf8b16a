//! The tokens of the construction language: words, numbers and braces, with their places.
#![tactic(auto)]

mod gaps;
pub mod laws;
mod lexing;
mod places;
mod token_types;

pub use lexing::tokens;
pub use token_types::{Fault, Kind, Lexed, Token, TokenList};
