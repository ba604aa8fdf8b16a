//! Programs of the construction language, and their canonical text.
#![tactic(auto)]

mod commands;
pub mod laws;
mod name_table;
mod names;
mod printer;
mod printing;
mod program_type;
mod restating;
mod statements;

pub use commands::{Command, Commands, LineId};
pub use name_table::{NameTable, texts_of};
pub use names::{Name, NameKind, Names};
pub use printer::Printer;
pub use printing::print;
pub use program_type::Program;
pub use statements::Statement;
