//! Bytes as a value.
use std::marker::Model;

/// The bytes of a text, which contracts see as a list. It is made from a `Vec` and gives it back
/// without taking memory: `Text { bytes }`.
#[derive(Debug, Drop)]
pub struct Text {
    /// The bytes, in any encoding.
    pub bytes: Vec<u8>,
}

impl Model for Text {
    ghost use Rattle.std.specs.Prelude.{List, ℕ};

    ghost Value = { List ℕ };

    ghost view = { λ t. t.bytes.items };
}
