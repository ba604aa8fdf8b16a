//! Why there is no program.

ghost use Rattle.std.specs.Prelude.{◌≡◌};
ghost use Rattle.geo_parser.specs.Inner.Symbols.{refusal_number};

use geo_lexer::Fault;
use std::alloc::{AllocError, AllocFailed};

/// Why there is no program.
#[derive(Clone, Copy, Debug, PartialEq, Eq)]
pub enum ParseError {
    /// The text spells no program. The fault is its first token that may not stand at its place,
    /// with the number of the refusal: 1 a byte that begins no token; 2 a number past `2^127 - 1`;
    /// 3 a word longer than 64 bytes; 4 another token than may stand there, or the end of the text
    /// inside a command or the statement; 5 a word that is neither reserved nor declared, where a
    /// declared name is due; 6 a declared word where a new name is due; 7 a name of another kind; 8
    /// a ratio in a step's number or in a divisor; 9 a brace that opens the 129th level inside an
    /// expression; 10 the new name of a command with which points, those of constructions counted,
    /// pass 512; 11 the end of the text where a command or `prove` is due; 12 a token after the
    /// statement.
    Syntax(Fault),
    /// Memory ran out.
    NoMemory,
}

impl From<geo_points::NoMemory> for ParseError {
    ghost use Rattle.std.specs.Prelude.{◌≡◌};
    ghost use Rattle.geo_parser.specs.declared.errors.ParseError.TheVariants.{NoMemory};

    ghost from_gives = { λ _ e. e ≡ NoMemory };

    fn from(_error: geo_points::NoMemory) -> ParseError {
        ParseError::NoMemory
    }
}

impl From<geo_base::NoMemory> for ParseError {
    ghost use Rattle.std.specs.Prelude.{◌≡◌};
    ghost use Rattle.geo_parser.specs.declared.errors.ParseError.TheVariants.{NoMemory};

    ghost from_gives = { λ _ e. e ≡ NoMemory };

    fn from(_error: geo_base::NoMemory) -> ParseError {
        ParseError::NoMemory
    }
}

impl From<AllocError> for ParseError {
    ghost use Rattle.std.specs.Prelude.{◌≡◌};
    ghost use Rattle.geo_parser.specs.declared.errors.ParseError.TheVariants.{NoMemory};

    ghost from_gives = { λ _ e. e ≡ NoMemory };

    fn from(_error: AllocError) -> ParseError {
        ParseError::NoMemory
    }
}

impl<T: Drop> From<AllocFailed<T>> for ParseError {
    ghost use Rattle.std.specs.Prelude.{◌≡◌};
    ghost use Rattle.geo_parser.specs.declared.errors.ParseError.TheVariants.{NoMemory};

    ghost from_gives = { λ _ e. e ≡ NoMemory };

    fn from(_error: AllocFailed<T>) -> ParseError {
        ParseError::NoMemory
    }
}

/// Why a token may not stand at its place. The variants are in the order of their numbers, from 4
/// on.
#[derive(Clone, Copy, Debug, PartialEq, Eq)]
pub enum Refusal {
    /// Another token is due.
    Expected,
    /// The word is neither reserved nor declared.
    UnknownName,
    /// The word is declared already.
    Redeclared,
    /// The name is of another kind.
    WrongKind,
    /// No ratio may stand here.
    RatioNotAllowed,
    /// The brace opens the 129th level.
    TooDeep,
    /// There are too many points.
    TooManyPoints,
    /// The text ends where a command or `prove` is due.
    NoStatement,
    /// The statement is at its end.
    AfterStatement,
}

impl Refusal {
    /// Its number.
    pub fn number(self) -> u32
        ensures { result ≡ refusal_number self }
    {
        match self {
            Refusal::Expected => 4,
            Refusal::UnknownName => 5,
            Refusal::Redeclared => 6,
            Refusal::WrongKind => 7,
            Refusal::RatioNotAllowed => 8,
            Refusal::TooDeep => 9,
            Refusal::TooManyPoints => 10,
            Refusal::NoStatement => 11,
            Refusal::AfterStatement => 12,
        }
    }
}
