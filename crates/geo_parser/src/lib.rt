//! Reads a text of the construction language: the program that it spells, or the first token that
//! may not stand at its place, and why.
#![tactic(auto)]

mod command_words;
mod commands;
mod cursor;
mod dictionary;
mod errors;
mod expression_words;
mod expressions;
pub mod laws;
mod parsing;
mod reader;
mod statement;
mod statement_words;
mod tables;

pub use errors::ParseError;
pub use parsing::parse;
