//! Tokens, and what is said of bytes that begin none.

use std::marker::Model;

/// What a token is.
#[derive(Clone, Copy, Debug, PartialEq, Eq)]
pub enum Kind {
    /// A letter and then letters, digits and `_`, as many as there are, at most 64 in all.
    Word,
    /// Digits, as many as there are, with perhaps a `-` directly before them.
    Number,
    /// `{`
    Open,
    /// `}`
    Close,
}

/// A token, by its place: it has the bytes from `start` up to, and without, `end`, counted from 0.
#[derive(Clone, Copy, Debug, PartialEq, Eq)]
pub struct Token {
    /// What it is.
    pub kind: Kind,
    /// Its first byte.
    pub start: u64,
    /// The byte after its last.
    pub end: u64,
}

/// A refusal, with the place of the first byte of the token that is refused.
#[derive(Clone, Copy, Debug, PartialEq, Eq)]
pub struct Fault {
    /// The number of the refusal. Of the three that the lexer gives, 1 is a byte that begins no
    /// token, 2 a number past `2^127 - 1` in absolute value, 3 a word longer than 64 bytes.
    pub refusal: u32,
    /// The byte where the refused token begins, counted from 0.
    pub place: u64,
}

/// Tokens, in order. Contracts see the list.
#[derive(Debug, Drop)]
pub struct TokenList {
    /// The tokens.
    pub items: Vec<Token>,
}

impl Model for TokenList {
    ghost use Rattle.std.specs.Prelude.{List};
    ghost use Rattle.geo_lexer.specs.declared.token_types.Token.{Token};

    ghost Value = { List Token };

    ghost view = { λ list. list.items.items };
}

/// The tokens of a text, up to its end or to the first place where none can stand.
#[derive(Debug, Drop)]
pub struct Lexed {
    /// The tokens, in order.
    pub tokens: TokenList,
    /// The fault that follows the last token; `None` where only blanks and comments follow.
    pub fault: Option<Fault>,
}
