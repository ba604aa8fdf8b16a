//! What the other crates stand on: sources and sinks of bytes, reading line by line, budgets, and
//! decimal text.
#![tactic(auto)]

pub use adapters::{ReaderSource, WriterSink};
pub use budgets::{Budget, Spent};
pub use decimals::{DecimalError, push_decimal, read_decimal};
pub use lines::LineReader;
pub use memory::{MemSink, MemSource};
pub use next_line::NextLine;
pub use no_memory::NoMemory;
pub use reading::{Failed, ReadError, Source, read_all};
pub use sure::{SureSink, SureSource};
pub use texts::Text;
pub use writing::{PutError, Sink, write_all};

mod adapters;
mod budgets;
mod decimals;
mod intake;
mod lines;
mod memory;
mod next_line;
mod no_memory;
mod piece;
mod reading;
mod sure;
mod texts;
mod writing;
