//! Lines without their polynomials.

ghost use Rattle.std.specs.Prelude.{◌≡◌, ◌≤◌, ◌∷◌, ◌++◌, ℕ, List, IfOk, codes, length};
ghost use Rattle.std.specs.List.{prefix_len};
ghost use Rattle.proof_log.specs.Inner.Reading.{Passes, StopsAt};
ghost use Rattle.proof_log.specs.Lines.{line_text};
ghost use Rattle.proof_log.specs.Writable.{IsWritable};
ghost use Rattle.proof_log.specs.declared.log.Line.{Line};
ghost use Rattle.proof_printer.specs.Inner.Colons.{is_before_colon};
ghost use Rattle.proof_printer.specs.Inner.Heads.{IsReadAs, has_polynomial};

use crate::pieces::read_written;
use geo_points::NoMemory;
use proof_log::Line;
use std::alloc::Global;

/// A line as it is read.
pub(crate) enum Read<'a> {
    /// One without a polynomial.
    Whole(Line),
    /// One with a polynomial: the line with the zero polynomial in its place, and its text.
    Step { head: Line, text: &'a [u8] },
}

/// By hand, so that a caller's proof sees one call where it is let go.
impl<'a> Drop for Read<'a> {
    fn drop(self) {
        match self {
            Read::Whole(_) => {}
            Read::Step { head: _, text: _ } => {}
        }
    }
}

/// The line that was written so.
pub(crate) fn read_head(alloc: Global, piece: &[u8]) -> Result<Read, NoMemory>
    requires { (line : Line) × IsWritable line × (piece.now ≡ line_text line) }
    ensures { (line : Line) → IsWritable line → piece.now ≡ line_text line
        → IfOk result (λ read. IsReadAs read line) }
{
    if !has_polynomial(piece) {
        let line = read_written(alloc, piece)?;
        return Ok(Read::Whole(line));
    }
    let (front, text) = around_colon(piece);
    let zero = with_zero(alloc, front)?;
    let head = read_written(alloc, &zero)?;
    Ok(Read::Step { head, text })
}

/// Whether the line has a polynomial.
fn has_polynomial(piece: &[u8]) -> bool
    ensures { (line : Line) → piece.now ≡ line_text line → result ≡ has_polynomial line }
{
    piece.starts_with(b"start ")
        || piece.starts_with(b"ratio ")
        || piece.starts_with(b"point ")
        || piece.starts_with(b"coords ")
        || piece.starts_with(b"cut ")
}

/// The bytes with `: 0` behind them.
fn with_zero(alloc: Global, front: &[u8]) -> Result<Vec<u8>, NoMemory>
    ensures { IfOk result (λ text. text.items ≡ front.now ++ codes ": 0") }
{
    let mut text = Vec::from_slice(alloc, front)?;
    text.extend_from_slice(b": 0")?;
    Ok(text)
}

/// The bytes before the first `:`, and those behind it and the space that follows.
fn around_colon(piece: &[u8]) -> (&[u8], &[u8])
    ensures { (front behind : List ℕ) → Passes is_before_colon front
        → piece.now ≡ front ++ codes ": " ++ behind
        → (result.0.now ≡ front) × (result.1.now ≡ behind) }
{
    let (front, rest) = piece.split_at(before_colon(piece));
    (front, behind_two(rest))
}

/// The bytes behind the first two.
fn behind_two(bytes: &[u8]) -> &[u8]
    ensures { (a b : ℕ) (behind : List ℕ) → bytes.now ≡ a ∷ b ∷ behind → result.now ≡ behind }
{
    match bytes {
        [_, _, behind @ ..] => behind,
        _ => bytes,
    }
}

/// How many bytes stand before the first `:`.
fn before_colon(piece: &[u8]) -> usize
    ensures run { result ≡ prefix_len is_before_colon piece.now }
    ensures within { result ≤ length piece.now }
{
    piece
        .iter()
        .take_while(|byte| is_before_colon(**byte))
        .count()
}

/// Whether the byte is no `:`.
fn is_before_colon(byte: u8) -> bool
    ensures { result ≡ is_before_colon byte }
{
    byte != b':'
}
