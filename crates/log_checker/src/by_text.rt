//! Lines of moves and cuts judged by their text: the line that is due is written, and the bytes are
//! compared with it, so that their polynomial is not read.

ghost use Rattle.std.specs.Prelude.{◌≡◌, [], ℕ, IfOk, IfSome, IsTrue};
ghost use Rattle.elim_apply.specs.Kept.{AreKnownRows};
ghost use Rattle.geo_terms.specs.Constructions.{Construction};
ghost use Rattle.log_checker.specs.Inner.ByText.{IsStepText, IsStepTo};
ghost use Rattle.log_checker.specs.Inner.Lines.{IsNamedBy};
ghost use Rattle.proof_log.specs.Lines.{line_text};
ghost use Rattle.proof_log.specs.Writable.{CanWritePolynomial, IsWritable};

use crate::cutting::{cut_result, is_by_known};
use crate::line_of::line_of;
use crate::moving::{move_result, ratio_move};
use crate::reasons::Reason;
use crate::stops::Stop;
use elim_apply::{KnownRows, Move};
use geo_base::Budget;
use geo_points::NoMemory;
use geo_poly::Poly;
use geo_poly::lists::Vars;
use geo_terms::Steps;
use proof_log::{Line, write_line};
use std::alloc::Global;

/// The polynomial after the line with these bytes, and the steps that are left, where the line is
/// that of a move or of a cut which goes on from the polynomial before it.
pub(crate) fn step_by_text(
    alloc: Global,
    steps: &Steps,
    numbers: &mut KnownRows,
    known: &Vars,
    left: u64,
    before: &Poly,
    bytes: &[u8],
) -> Result<Option<(Poly, u64)>, NoMemory>
    requires numbers { AreKnownRows steps.now numbers.old }
    requires named { IsNamedBy steps.now before.now }
    requires written { CanWritePolynomial before.now }
    ensures found { IfOk result (λ found. IfSome found
        (λ p. IsStepText steps.now known.now left before.now bytes.now p.1 p.0)) }
    ensures numbers { AreKnownRows steps.now numbers.new }
{
    let Some(head) = head_line(alloc, bytes)? else {
        return Ok(None);
    };
    let mut budget = Budget { left };
    let Ok(line) = due_line(alloc, steps, numbers, known, before, head, &mut budget) else {
        return Ok(None);
    };
    if !is_text_of(alloc, bytes, &line)? {
        return Ok(None);
    }
    match line.into_polynomial() {
        Some(poly) => Ok(Some((poly, budget.left))),
        None => Ok(None),
    }
}

/// Whether the bytes are those of a cut of zero. The line is as short as its head, so it is read as it
/// is.
pub(crate) fn is_cut_of_zero(alloc: Global, known: &Vars, bytes: &[u8]) -> Result<bool, NoMemory>
    ensures { (c : Construction) (left : ℕ) → IfOk result (λ is. IsTrue is
        → IsStepText c known.now left [] bytes.now left []) }
{
    let Some(Line::Cut { by, poly }) = line_of(alloc, bytes)? else {
        return Ok(false);
    };
    if !poly.is_zero() {
        return Ok(false);
    }
    // From here on it is known that the factor is one.
    prove!(by.coef() != 0);
    Ok(is_by_known(&known.items, &by))
}

/// The line with what stands before the first `:`, and with the zero polynomial behind it.
fn head_line(alloc: Global, bytes: &[u8]) -> Result<Option<Line>, NoMemory>
    ensures { IfOk result (λ line. IfSome line IsWritable) }
{
    let Some(head) = before_colon(bytes) else {
        return Ok(None);
    };
    let mut text = Vec::with_capacity(alloc, head.len().saturating_add(3))?;
    text.extend_from_slice(head)?;
    text.extend_from_slice(b": 0")?;
    line_of(alloc, &text)
}

/// What stands before the first `:`.
fn before_colon(bytes: &[u8]) -> Option<&[u8]> {
    let at = bytes.iter().position(|byte| *byte == b':')?;
    bytes.get(..at)
}

/// The line with this head, and with the polynomial that is due in it.
fn due_line(
    alloc: Global,
    steps: &Steps,
    numbers: &mut KnownRows,
    known: &Vars,
    before: &Poly,
    head: Line,
    budget: &mut Budget,
) -> Result<Line, Stop>
    requires numbers { AreKnownRows steps.now numbers.old }
    requires named { IsNamedBy steps.now before.now }
    requires written { CanWritePolynomial before.now }
    requires writable { IsWritable head }
    ensures step { IfOk result
        (IsStepTo steps.now known.now budget.old.left before.now budget.new.left) }
    ensures numbers { AreKnownRows steps.now numbers.new }
{
    // From here on it is known that the steps are a construction.
    prove!(steps.count() <= 512);
    match head {
        Line::Ratio { var, lemma, at, .. } => {
            let mv = ratio_move(var, lemma, at);
            let poly = move_result(alloc, steps, numbers, before, &mv, budget)?;
            Ok(Line::Ratio {
                var,
                lemma,
                at,
                poly,
            })
        }
        Line::Point { at, .. } => {
            let mv = Move::Point(at);
            let poly = move_result(alloc, steps, numbers, before, &mv, budget)?;
            Ok(Line::Point { at, poly })
        }
        Line::Coords(_) => {
            let mv = Move::Coords;
            let poly = move_result(alloc, steps, numbers, before, &mv, budget)?;
            Ok(Line::Coords(poly))
        }
        Line::Cut { by, .. } => {
            let poly = cut_result(alloc, known, before, &by)?;
            Ok(Line::Cut { by, poly })
        }
        _ => Err(Stop::Rejected(Reason::WrongLine)),
    }
}

/// Whether the bytes are the text of the line.
fn is_text_of(alloc: Global, bytes: &[u8], line: &Line) -> Result<bool, NoMemory>
    requires { IsWritable line.now }
    ensures { IfOk result (λ same. IsTrue same → line_text line.now ≡ bytes.now) }
{
    let mut text = write_line(alloc, line)?;
    let _feed = text.bytes.pop();
    Ok(is_same(text.bytes.as_slice(), bytes))
}

/// Whether both are the same bytes.
fn is_same(left: &[u8], right: &[u8]) -> bool
    ensures { IsTrue result → left.now ≡ right.now }
{
    left == right
}
