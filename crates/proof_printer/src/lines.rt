//! What is printed of each line of a log.

ghost use Rattle.std.specs.Prelude.{codes, ◌≡◌, ◌↔◌, [], ◌++◌, IfOk, IsTrue, OnOk, false};
ghost use Rattle.std.specs.Fmt.{decimal};
ghost use Rattle.elim_apply.specs.Replacements.{CanMove};
ghost use Rattle.geo_poly.specs.Polynomials.{IsPolynomial, Summands};
ghost use Rattle.proof_log.specs.declared.log.Line.{Line};
ghost use Rattle.proof_printer.specs.Readable.{end_text, ended, lines_of, move_lines};
ghost use Rattle.proof_printer.specs.Readable.{polynomial_after, ratio_move, verdict_text};
ghost use Rattle.proof_printer.specs.Inner.Heads.{IsDue, IsReadAs, IsStep, has_polynomial};
ghost use Rattle.proof_printer.specs.Inner.Names.{naming_in};
ghost use Rattle.proof_printer.specs.Inner.Reading.{IsKept, IsTextOf};

use crate::heads::Read;
use crate::numbers::push_number;
use crate::printer::Printer;
use crate::reading::Before;
use elim_apply::replacement_of;
use geo_base::Text;
use geo_logs::Move;
use geo_points::{NoMemory, PointId};
use geo_poly::lists::Values;
use geo_poly::{Factor, Var};
use proof_log::{Line, Verdict};
use std::alloc::Global;

impl Printer {
    /// Appends what is printed of a line, which stands behind the polynomial of which this is kept.
    /// What is to be kept of the polynomial behind it.
    pub fn push_line(
        &self,
        alloc: Global,
        out: &mut Vec<u8>,
        before: Before,
        read: &Read,
    ) -> Result<Before, NoMemory>
        requires { (q : Summands) × (l : Line) × IsDue self.now.steps before q l
            × IsReadAs read.now l }
        ensures text { (q : Summands) (l : Line) → IsDue self.now.steps before q l
            → IsReadAs read.now l → OnOk result (out.new.items ≡ out.old.items
            ++ lines_of (naming_in self.now.namer) self.now.steps q l) }
        ensures kept { (q : Summands) (l : Line) → IsDue self.now.steps before q l
            → IsReadAs read.now l → IfOk result (λ after. IsKept after (polynomial_after q l)) }
    {
        match read {
            Read::Whole(line) => {
                self.push_whole(alloc, out, &before, line)?;
                Ok(before)
            }
            Read::Step { head, text } => self.push_step(alloc, out, &before, head, text),
        }
    }

    /// The same of a line with a polynomial.
    fn push_step(
        &self,
        alloc: Global,
        out: &mut Vec<u8>,
        before: &Before,
        head: &Line,
        text: &[u8],
    ) -> Result<Before, NoMemory>
        requires { (q : Summands) × (l : Line) × IsDue self.now.steps before.now q l
            × IsStep head.now text.now l }
        ensures text { (q : Summands) (l : Line) → IsDue self.now.steps before.now q l
            → IsStep head.now text.now l → OnOk result (out.new.items ≡ out.old.items
            ++ lines_of (naming_in self.now.namer) self.now.steps q l) }
        ensures kept { (q : Summands) (l : Line) → IsDue self.now.steps before.now q l
            → IsStep head.now text.now l
            → IfOk result (λ after. IsKept after (polynomial_after q l)) }
    {
        match head {
            Line::Start(_) => self.push_start(alloc, out, text),
            Line::Ratio { var, lemma, at, .. } => {
                self.push_move(alloc, out, before, &ratio_move(*var, *lemma, *at), text)
            }
            Line::Point { at, .. } => {
                self.push_move(alloc, out, before, &Move::Point(*at), text)
            }
            Line::Coords(_) => self.push_move(alloc, out, before, &Move::Coords, text),
            Line::Cut { by, .. } => self.push_cut(alloc, out, by, text),
            _ => unreachable!(),
        }
    }

    /// Appends what is printed of a line without a polynomial.
    fn push_whole(
        &self,
        alloc: Global,
        out: &mut Vec<u8>,
        before: &Before,
        line: &Line,
    ) -> Result<(), NoMemory>
        requires { has_polynomial line.now ≡ false }
        ensures { (q : Summands) → IsKept before.now q → OnOk result (out.new.items
            ≡ out.old.items ++ lines_of (naming_in self.now.namer) self.now.steps q line.now) }
    {
        match line {
            Line::Header { .. } => Ok(()),
            Line::Program(text) => push_program(out, text),
            Line::Condition { k, text } => push_head(alloc, out, b"Condition ", *k, text),
            Line::Goal { k, text } => push_head(alloc, out, b"Goal ", *k, text),
            Line::End => push_end(out, before.zero),
            Line::Sample(values) => self.push_sample(alloc, out, values),
            Line::Verdict(verdict) => push_verdict(alloc, out, *verdict),
            Line::StopTooLarge { .. } => Ok(()),
            Line::StopSpent { .. } => Ok(()),
            Line::Start(_)
            | Line::Ratio { .. }
            | Line::Point { .. }
            | Line::Coords(_)
            | Line::Cut { .. } => unreachable!(),
        }
    }

    /// Appends the start of a chain.
    fn push_start(&self, alloc: Global, out: &mut Vec<u8>, text: &[u8]) -> Result<Before, NoMemory>
        ensures text { (q : Summands) → IsTextOf text.now q → OnOk result (out.new.items
            ≡ out.old.items ++ lines_of (naming_in self.now.namer) self.now.steps []
            (Line.Start q)) }
        ensures kept { (q : Summands) → IsTextOf text.now q
            → IfOk result (λ after. IsKept after q) }
    {
        out.extend_from_slice(b"  ")?;
        let after = self.namer.push_read(alloc, out, text)?;
        out.push(b'\n')?;
        Ok(after)
    }

    /// Appends what the move replaces in the polynomial before, and what it gives.
    fn push_move(
        &self,
        alloc: Global,
        out: &mut Vec<u8>,
        before: &Before,
        mv: &Move,
        text: &[u8],
    ) -> Result<Before, NoMemory>
        requires { (q : Summands) × IsKept before.now q × IsPolynomial q
            × CanMove self.now.steps q mv.now }
        ensures text { (q r : Summands) → IsKept before.now q → CanMove self.now.steps q mv.now
            → IsTextOf text.now r → OnOk result (out.new.items ≡ out.old.items
            ++ move_lines (naming_in self.now.namer) self.now.steps q mv.now r) }
        ensures kept { (r : Summands) → IsTextOf text.now r
            → IfOk result (λ after. IsKept after r) }
    {
        let made = replacement_of(alloc, &self.steps, &before.variables.items, mv)?;
        self.namer.push_replacement(alloc, out, &made, text)
    }

    /// Appends the division by a factor, with the quotient.
    fn push_cut(
        &self,
        alloc: Global,
        out: &mut Vec<u8>,
        by: &Factor,
        text: &[u8],
    ) -> Result<Before, NoMemory>
        ensures text { (q : Summands) → IsTextOf text.now q → OnOk result (out.new.items
            ≡ out.old.items ++ lines_of (naming_in self.now.namer) self.now.steps []
            (Line.Cut by.now q)) }
        ensures kept { (q : Summands) → IsTextOf text.now q
            → IfOk result (λ after. IsKept after q) }
    {
        out.extend_from_slice(b"  divide by ")?;
        self.namer.push_factor(alloc, out, by)?;
        out.extend_from_slice(b": ")?;
        let after = self.namer.push_read(alloc, out, text)?;
        out.push(b'\n')?;
        Ok(after)
    }

    /// Appends the values of a sample.
    fn push_sample(&self, alloc: Global, out: &mut Vec<u8>, values: &Values) -> Result<(), NoMemory>
        ensures { OnOk result (out.new.items ≡ out.old.items
            ++ lines_of (naming_in self.now.namer) self.now.steps [] (Line.Sample values.now)) }
    {
        out.extend_from_slice(b"At")?;
        self.namer.push_values(alloc, out, &values.items)?;
        out.push(b'\n')?;
        Ok(())
    }
}

/// The move of a ratio line. A lemma that looks at no point is given point 0.
fn ratio_move(var: Var, lemma: u32, at: Option<PointId>) -> Move
    ensures { result ≡ ratio_move var lemma at }
{
    Move::Ratio {
        var,
        lemma,
        at: at.unwrap_or(PointId(0)),
    }
}

/// Appends a line of the program.
fn push_program(out: &mut Vec<u8>, text: &Text) -> Result<(), NoMemory>
    ensures { OnOk result (out.new.items ≡ out.old.items ++ ended text.now) }
{
    out.extend_from_slice(&text.bytes)?;
    out.push(b'\n')?;
    Ok(())
}

/// Appends the head of a chain: a word, its number and its text.
fn push_head(
    alloc: Global,
    out: &mut Vec<u8>,
    word: &[u8],
    k: u32,
    text: &Text,
) -> Result<(), NoMemory>
    ensures { OnOk result (out.new.items ≡ out.old.items
        ++ ended (word.now ++ decimal k ++ codes ": " ++ text.now)) }
{
    out.extend_from_slice(word)?;
    push_number(alloc, out, k)?;
    out.extend_from_slice(b": ")?;
    out.extend_from_slice(&text.bytes)?;
    out.push(b'\n')?;
    Ok(())
}

/// Appends what a chain ends in.
fn push_end(out: &mut Vec<u8>, zero: bool) -> Result<(), NoMemory>
    ensures { (last : Summands) → IsTrue zero ↔ (last ≡ [])
        → OnOk result (out.new.items ≡ out.old.items ++ ended (end_text last)) }
{
    if zero {
        out.extend_from_slice(b"  zero\n")?;
    } else {
        out.extend_from_slice(b"  not zero\n")?;
    }
    Ok(())
}

/// Appends what the log shows.
fn push_verdict(alloc: Global, out: &mut Vec<u8>, verdict: Verdict) -> Result<(), NoMemory>
    ensures { OnOk result (out.new.items ≡ out.old.items ++ ended (verdict_text verdict)) }
{
    match verdict {
        Verdict::Proved => out.extend_from_slice(b"Proved.\n")?,
        Verdict::False(goal) => {
            push_numbered(alloc, out, b"False: goal ", goal, b" fails there.")?;
        }
        Verdict::Impossible(k) => {
            push_numbered(alloc, out, b"Impossible: condition ", k, b" is never met.")?;
        }
    }
    Ok(())
}

/// Appends a line: a number between two texts.
fn push_numbered(
    alloc: Global,
    out: &mut Vec<u8>,
    before: &[u8],
    n: u32,
    behind: &[u8],
) -> Result<(), NoMemory>
    ensures { OnOk result (out.new.items ≡ out.old.items
        ++ ended (before.now ++ decimal n ++ behind.now)) }
{
    out.extend_from_slice(before)?;
    push_number(alloc, out, n)?;
    out.extend_from_slice(behind)?;
    out.push(b'\n')?;
    Ok(())
}
