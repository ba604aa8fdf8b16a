//! The token at a place.

ghost use Rattle.std.specs.Prelude.{◌≡◌, ◌+◌, ◌≤◌, ◌<◌, ◌⊎◌, IsTrue, false, drop, length, IfOk};
ghost use Rattle.std.specs.Prelude.{IfErr, slice_index};
ghost use Rattle.std.specs.List.{prefix_len};
ghost use Rattle.geo_lexer.specs.Bytes.{is_blank, is_comment_start, is_digit, is_letter};
ghost use Rattle.geo_lexer.specs.Bytes.{is_word_byte};
ghost use Rattle.geo_lexer.specs.Tokens.{IsTokenAt, IsFaultAt};

use crate::token_types::{Fault, Kind, Token};
use geo_base::{DecimalError, read_decimal};

// The refusals of a text that is no token.
const BAD_BYTE: u32 = 1;

const WIDE_NUMBER: u32 = 2;

const LONG_WORD: u32 = 3;

// The most bytes of a word.
const WORD_LIMIT: usize = 64;

// The token that begins at a place, where no gap does.
pub(crate) fn token_at(bytes: &[u8], start: usize) -> Result<Token, Fault>
    requires within { start < length bytes.now }
    requires no_blank { is_blank (slice_index bytes.now start) ≡ false }
    requires no_comment { is_comment_start (slice_index bytes.now start) ≡ false }
    ensures token { IfOk result (λ t. (t.start ≡ start)
        × IsTokenAt bytes.now t.kind t.start t.end) }
    ensures fault { IfErr result (λ f. (f.place ≡ start) × IsFaultAt bytes.now f.refusal f.place) }
{
    match bytes[start] {
        b'{' => Ok(token(Kind::Open, start, start + 1)),
        b'}' => Ok(token(Kind::Close, start, start + 1)),
        b'-' | b'0'..=b'9' => number_at(bytes, start),
        b'A'..=b'Z' | b'a'..=b'z' => word_at(bytes, start),
        _ => Err(fault(BAD_BYTE, start)),
    }
}

// The word that begins at a place, by a letter.
fn word_at(bytes: &[u8], start: usize) -> Result<Token, Fault>
    requires within { start < length bytes.now }
    requires letter { IsTrue (is_letter (slice_index bytes.now start)) }
    ensures token { IfOk result (λ t. (t.start ≡ start)
        × IsTokenAt bytes.now t.kind t.start t.end) }
    ensures fault { IfErr result (λ f. (f.place ≡ start) × IsFaultAt bytes.now f.refusal f.place) }
{
    let end = word_end(bytes, start);
    if end - start > WORD_LIMIT {
        return Err(fault(LONG_WORD, start));
    }
    Ok(token(Kind::Word, start, end))
}

// The number that begins at a place, by a digit or a `-`.
fn number_at(bytes: &[u8], start: usize) -> Result<Token, Fault>
    requires within { start < length bytes.now }
    requires digit_or_minus { IsTrue (is_digit (slice_index bytes.now start))
        ⊎ (slice_index bytes.now start ≡ 45) }
    ensures token { IfOk result (λ t. (t.start ≡ start)
        × IsTokenAt bytes.now t.kind t.start t.end) }
    ensures fault { IfErr result (λ f. (f.place ≡ start) × IsFaultAt bytes.now f.refusal f.place) }
{
    let end = digits_end(bytes, start + 1);
    match read_decimal(&bytes[start..end]) {
        Ok(_) => Ok(token(Kind::Number, start, end)),
        Err(DecimalError::Wide) => Err(fault(WIDE_NUMBER, start)),
        Err(DecimalError::NotDecimal) => Err(fault(BAD_BYTE, start)),
    }
}

// Where the letters, digits and `_` from a place on end.
fn word_end(bytes: &[u8], start: usize) -> usize
    requires { start ≤ length bytes.now }
    ensures run { result ≡ start + prefix_len is_word_byte (drop start bytes.now) }
    ensures within { result ≤ length bytes.now }
{
    let run = bytes[start..]
        .iter()
        .take_while(|byte| is_word_byte(**byte));
    start + run.count()
}

// Where the digits from a place on end.
fn digits_end(bytes: &[u8], start: usize) -> usize
    requires { start ≤ length bytes.now }
    ensures run { result ≡ start + prefix_len is_digit (drop start bytes.now) }
    ensures within { result ≤ length bytes.now }
{
    let run = bytes[start..].iter().take_while(|byte| is_digit(**byte));
    start + run.count()
}

// Whether a byte is a letter, a digit or `_`.
fn is_word_byte(byte: u8) -> bool
    ensures { result ≡ is_word_byte byte }
{
    byte.is_ascii_alphanumeric() || byte == b'_'
}

// Whether a byte is a digit.
fn is_digit(byte: u8) -> bool
    ensures { result ≡ is_digit byte }
{
    byte.is_ascii_digit()
}

// The token of a kind from one place to another.
fn token(kind: Kind, start: usize, end: usize) -> Token
    ensures kind { result.kind ≡ kind }
    ensures start { result.start ≡ start }
    ensures end { result.end ≡ end }
{
    Token {
        kind,
        start: start as u64,
        end: end as u64,
    }
}

// The fault of a refusal at a place.
fn fault(refusal: u32, place: usize) -> Fault
    ensures refusal { result.refusal ≡ refusal }
    ensures place { result.place ≡ place }
{
    Fault {
        refusal,
        place: place as u64,
    }
}
