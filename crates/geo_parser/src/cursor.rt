//! The tokens that are still to be read.

ghost use Rattle.std.specs.Prelude.{◌≡◌, ◌≤◌, ◌<◌, ◌^◌, ◌↔◌, All, IsTrue, IsSome, IfSome, None, []};
ghost use Rattle.std.specs.Prelude.{length, option_map, slice_range};
ghost use Rattle.geo_base.specs.Decimals.{IsDecimal, decimal_size, decimal_value};
ghost use Rattle.geo_lexer.specs.Lexemes.{lexeme_of};
ghost use Rattle.geo_lexer.specs.Tokens.{IsTokenAt};
ghost use Rattle.geo_parser.specs.Inner.Coming.{fault_here, next_lexeme, tail};
ghost use Rattle.geo_parser.specs.Inner.Symbols.{IsSymbol, symbol_lexeme, refusal_number};
ghost use Rattle.geo_parser.specs.Refusals.{placed_lexemes};

use crate::errors::{ParseError, Refusal};
use geo_base::read_decimal;
use geo_lexer::{Fault, Kind, Token};
use std::marker::Model;

/// What a token means.
#[derive(Clone, Copy)]
pub enum Symbol<'a> {
    /// A word.
    Word(&'a [u8]),
    /// A number.
    Number(i128),
    /// `{`
    Open,
    /// `}`
    Close,
}

/// The tokens of a text that are still to be read, and what follows the last of them.
#[derive(Drop)]
pub struct Cursor<'a> {
    bytes: &'a [u8],
    tokens: &'a [Token],
    stop: Option<Fault>,
}

impl<'a> Model for Cursor<'a> {
    ghost use Rattle.std.specs.Prelude.{◌≤◌, All, length};
    ghost use Rattle.geo_lexer.specs.Tokens.{IsTokenAt};
    ghost use Rattle.geo_parser.specs.Inner.Coming.{Coming};
    ghost use Rattle.geo_parser.specs.Refusals.{placed_lexemes};

    ghost Value = { Coming };

    ghost view = { λ c. record {
      tokens = placed_lexemes c.bytes.now c.tokens.now;
      end = length c.bytes.now;
      stop = c.stop;
    } };

    ghost invariant = { λ c. (length c.bytes.now ≤ 67108864)
        × All (λ t. IsTokenAt c.bytes.now t.kind t.start t.end) c.tokens.now };
}

impl<'a> Cursor<'a> {
    /// At the first of these tokens.
    pub fn new(bytes: &'a [u8], tokens: &'a [Token], stop: Option<Fault>) -> Cursor<'a>
        requires short { length bytes.now ≤ 67108864 }
        requires tokens { All (λ t. IsTokenAt bytes.now t.kind t.start t.end) tokens.now }
        ensures { result ≡ record {
          tokens = placed_lexemes bytes.now tokens.now;
          end = length bytes.now;
          stop = stop;
        } }
    {
        Cursor {
            bytes,
            tokens,
            stop,
        }
    }

    /// The next token.
    pub fn peek(&self) -> Option<Symbol<'a>>
        ensures lexeme { option_map symbol_lexeme result ≡ next_lexeme self.now.tokens }
        ensures valid { IfSome result IsSymbol }
    {
        match self.tokens {
            [token, ..] => Some(meaning(self.bytes, *token)),
            [] => None,
        }
    }

    /// Goes past the next token.
    pub fn advance(&mut self)
        requires { IsSome (next_lexeme self.old.tokens) }
        ensures { self.new ≡ record self.old { tokens = tail self.old.tokens } }
    {
        self.tokens = &self.tokens[1..];
    }

    /// Whether nothing is to come, not even what is no token.
    pub fn is_at_end(&self) -> bool
        ensures { IsTrue result ↔ ((self.now.tokens ≡ []) × (self.now.stop ≡ None)) }
    {
        self.tokens.is_empty() && self.stop.is_none()
    }

    /// Refuses the next token. Where none is left, what is no token is refused in its place, or
    /// else the end of the text.
    pub fn refuse(&self, refusal: Refusal) -> ParseError
        ensures { result ≡ ParseError.Syntax
            (fault_here (refusal_number refusal) self.now.tokens self.now.end self.now.stop) }
    {
        ParseError::Syntax(self.fault(refusal))
    }

    fn fault(&self, refusal: Refusal) -> Fault
        ensures { result
            ≡ fault_here (refusal_number refusal) self.now.tokens self.now.end self.now.stop }
    {
        let refusal = refusal.number();
        match (self.tokens, self.stop) {
            ([token, ..], _) => Fault {
                refusal,
                place: token.start,
            },
            ([], Some(stop)) => stop,
            ([], None) => Fault {
                refusal,
                place: self.bytes.len() as u64,
            },
        }
    }
}

// What the token means.
fn meaning<'a>(bytes: &'a [u8], token: Token) -> Symbol<'a>
    requires { IsTokenAt bytes.now token.kind token.start token.end }
    ensures lexeme { symbol_lexeme result ≡ lexeme_of bytes.now token }
    ensures valid { IsSymbol result }
{
    let text = &bytes[token.start as usize..token.end as usize];
    match token.kind {
        Kind::Word => Symbol::Word(text),
        Kind::Number => Symbol::Number(number(text)),
        Kind::Open => Symbol::Open,
        Kind::Close => Symbol::Close,
    }
}

// The number that the decimal text writes.
fn number(text: &[u8]) -> i128
    requires decimal { IsDecimal text.now }
    requires size { decimal_size text.now < 2 ^ 127 }
    ensures { result ≡ decimal_value text.now }
{
    match read_decimal(text) {
        Ok(number) => number,
        Err(_) => unreachable!(),
    }
}
