//! What is proved of tokens. The functions do nothing: what each says is its contract.

ghost use Rattle.geo_lexer.specs.Laws.{LexemesAreSmall, LexemesAreUnique, LexingIsUnique};
ghost use Rattle.geo_lexer.specs.Laws.{TextsAreLexed, TokensAreWithin};

/// A text has one lexing: its tokens and its fault are the same in any two.
pub fn lexing_is_unique()
    ensures { LexingIsUnique }
{}

/// Each text has a lexing.
pub fn texts_are_lexed()
    ensures { TextsAreLexed }
{}

/// The tokens of a lexing stand in the text, one after another, and before its fault.
pub fn tokens_are_within()
    ensures { TokensAreWithin }
{}

/// A text has one list of lexemes.
pub fn lexemes_are_unique()
    ensures { LexemesAreUnique }
{}

/// A text's words have at most 64 bytes, and its numbers are within 127 bits.
pub fn lexemes_are_small()
    ensures { LexemesAreSmall }
{}
