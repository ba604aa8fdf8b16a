//! What reading line by line hands out.

use crate::texts::Text;

/// What a reader of lines hands out.
#[derive(Debug, Drop)]
pub enum NextLine {
    /// A line, without the line feed that ends it.
    Line(Text),
    /// What follows the last line feed, at the end of the input. It may be empty.
    Rest(Text),
}
