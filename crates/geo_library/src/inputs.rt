//! The parts of the input: a log, a line that gives names, and a program.

ghost use Rattle.std.specs.Prelude.{◌≡◌, ◌==◌, ◌<◌, ◌++◌, ℕ, List, IfNone, IfOk, IfSome, MatchBool};
ghost use Rattle.std.specs.Prelude.{MatchOption, length, map, position};
ghost use Rattle.std.specs.List.{AllPass, prefix_len};
ghost use Rattle.geo_lexer.specs.Bytes.{is_letter, is_word_byte};
ghost use Rattle.geo_lexer.specs.Lexemes.{IsWord};
ghost use Rattle.geo_library.specs.Inner.Names.{BeginsWithSome, HasNoNames};
ghost use Rattle.geo_library.specs.Inputs.{BeginsWithLog, BeginsWithNames, BeginsWithVerdict};

use geo_points::NoMemory;
use std::alloc::Global;

/// The texts that the `with` line gives, and what follows it.
#[derive(Drop)]
pub struct Names<'a> {
    /// The texts, one for each name of the cited program.
    pub texts: Vec<&'a [u8]>,
    /// The text of the citing program.
    pub program: &'a [u8],
}

/// The log, up to and with the first line that begins with `verdict `, and what follows it. Where
/// there is no such line, all is the log.
pub fn cut_log(bytes: &[u8]) -> (&[u8], &[u8])
    ensures { BeginsWithLog bytes.now result.0.now result.1.now }
{
    let rest = behind_log(bytes);
    let end = bytes.len() - rest.len();
    bytes.split_at(end)
}

/// What follows the log.
fn behind_log(bytes: &[u8]) -> &[u8]
    ensures { BeginsWithSome bytes.now result.now }
{
    let mut rest = bytes;
    while let Some(at) = line_feed_at(rest) {
        let (line, behind) = rest.split_at(at);
        rest = &behind[1..];
        if begins_with_verdict(line) {
            return rest;
        }
    }
    &[]
}

/// Where the first line feed stands.
fn line_feed_at(bytes: &[u8]) -> Option<usize>
    ensures value { result ≡ position (λ b. b == 10) bytes.now }
    ensures within { IfSome result (λ at. at < length bytes.now) }
{
    bytes.iter().position(|b| *b == b'\n')
}

/// Whether the line begins with `verdict `.
fn begins_with_verdict(line: &[u8]) -> bool
    ensures { MatchBool result (BeginsWithVerdict line.now) (BeginsWithVerdict line.now → ⊥) }
{
    match behind(line, b"verdict ") {
        Some(_) => true,
        None => false,
    }
}

/// What stands behind the text, where the bytes begin with it.
pub fn behind<'a>(bytes: &'a [u8], text: &[u8]) -> Option<&'a [u8]>
    ensures some { IfSome result (λ rest. bytes.now ≡ text.now ++ rest.now) }
    ensures none { IfNone result ((rest : List ℕ) → bytes.now ≡ text.now ++ rest → ⊥) }
{
    let rest = bytes.strip_prefix(text)?;
    Some(rest)
}

/// What is named behind the log: `with` and words, each after one space. `None` where there is no
/// such line.
pub fn read_names(alloc: Global, rest: &[u8]) -> Result<Option<Names>, NoMemory>
    ensures { IfOk result (λ names. MatchOption names (HasNoNames rest.now)
        (λ n. BeginsWithNames rest.now (map (λ text. text.now) n.texts.items) n.program.now)) }
{
    let Some(words) = behind(rest, b"with") else {
        return Ok(None);
    };
    let mut left = words;
    let mut texts = Vec::new(alloc);
    while let Some(next) = behind(left, b" ") {
        let (word, after) = next.split_at(word_length(next));
        if !is_word(word) {
            return Ok(None);
        }
        texts.push(word)?;
        left = after;
    }
    match behind(left, b"\n") {
        Some(program) => Ok(Some(Names { texts, program })),
        None => Ok(None),
    }
}

/// How many letters, digits and `_` stand in front.
fn word_length(bytes: &[u8]) -> usize
    ensures { result ≡ prefix_len is_word_byte bytes.now }
{
    bytes.iter().take_while(|b| is_word_byte(**b)).count()
}

/// Whether letters, digits and `_` are a word: a letter stands first, and they are at most 64.
fn is_word(text: &[u8]) -> bool
    requires { AllPass is_word_byte text.now }
    ensures { MatchBool result (IsWord text.now) (IsWord text.now → ⊥) }
{
    !text.is_empty() && text.len() <= 64 && is_letter(text[0])
}

/// Whether the byte is a letter.
fn is_letter(byte: u8) -> bool
    ensures { result ≡ is_letter byte }
{
    byte.is_ascii_alphabetic()
}

/// Whether the byte may stand in a word.
fn is_word_byte(byte: u8) -> bool
    ensures { result ≡ is_word_byte byte }
{
    byte.is_ascii_alphanumeric() || byte == b'_'
}
