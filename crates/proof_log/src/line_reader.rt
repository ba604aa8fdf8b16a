//! Reading a line.

ghost use Rattle.std.specs.List.{list_any};
ghost use Rattle.std.specs.Prelude.{◌≡◌, ◌==◌, false, true, [], IsNone, IsTrue, ◌↔◌, IfSome, IfOk};
ghost use Rattle.std.specs.Prelude.{OnOk, IsErrOf};
ghost use Rattle.proof_log.specs.declared.leads.Lead.TheVariants.{Condition as ConditionLead};
ghost use Rattle.proof_log.specs.declared.leads.Lead.TheVariants.{Cut as CutLead, Goal as GoalLead};
ghost use Rattle.proof_log.specs.declared.leads.Lead.TheVariants.{Point as PointLead};
ghost use Rattle.proof_log.specs.declared.leads.Lead.TheVariants.{Ratio as RatioLead};
ghost use Rattle.geo_poly.specs.PolynomialVariables.{IsRatio};
ghost use Rattle.proof_log.specs.declared.log.Line.{Line};
ghost use Rattle.proof_log.specs.Inner.Leads.{IsBody, heads, last_numbers, lemmas, results, stops};
ghost use Rattle.proof_log.specs.Inner.Leads.{texts, versions};
ghost use Rattle.proof_log.specs.Lines.{line_text};
ghost use Rattle.proof_log.specs.Inner.Reading.{Begins, NoneBegins};
ghost use Rattle.proof_log.specs.Writable.{HasNoLineFeed, IsWritable};

use crate::errors::LineError;
use crate::leads::Lead;
use crate::log::{Line, Verdict};
use crate::reader::Reader;
use geo_base::Text;
use geo_points::PointId;
use geo_poly::{Poly, Var, Which};
use std::alloc::Global;

/// The last version of the format.
const LAST_VERSION: u32 = 2;

/// The line whose text the bytes are, without its line feed. `BadLine` comes exactly where they
/// are the text of no line that may be written.
pub fn read_line(alloc: Global, bytes: &[u8]) -> Result<Line, LineError>
    ensures writable { IfOk result IsWritable }
    ensures text { IfOk result (λ l. bytes.now ≡ line_text l) }
    ensures exact { (l : Line) → IsWritable l → bytes.now ≡ line_text l → IfOk result (λ m. m ≡ l) }
    ensures bad { IsErrOf result LineError.BadLine
        → (l : Line) → IsWritable l → bytes.now ≡ line_text l → ⊥ }
{
    let mut reader = Reader::new(bytes);
    let lead = reader.lead().ok_or(LineError::BadLine)?;
    reader.body(alloc, lead)
}

impl<'a> Reader<'a> {
    // What follows the lead.
    fn body(&mut self, alloc: Global, lead: Lead) -> Result<Line, LineError>
        ensures line { IfOk result (IsBody lead self.old) }
        ensures bad { IsErrOf result LineError.BadLine → (l : Line) → IsBody lead self.old l → ⊥ }
    {
        match lead {
            Lead::Header => Ok(Line::Header {
                version: self.version()?,
            }),
            Lead::Program => Ok(Line::Program(self.text(alloc)?)),
            Lead::Condition => self.condition(alloc),
            Lead::Goal => self.goal(alloc),
            Lead::Start => Ok(Line::Start(self.polynomial(alloc)?)),
            Lead::Ratio => self.ratio(alloc),
            Lead::Point => self.point(alloc),
            Lead::Coords => Ok(Line::Coords(self.polynomial(alloc)?)),
            Lead::Cut => self.cut(alloc),
            Lead::End => {
                self.end()?;
                Ok(Line::End)
            }
            Lead::Sample => Ok(Line::Sample(self.values(alloc)?)),
            Lead::Proved => {
                self.end()?;
                Ok(Line::Verdict(Verdict::Proved))
            }
            Lead::False => Ok(Line::Verdict(Verdict::False(self.last_small()?))),
            Lead::Impossible => Ok(Line::Verdict(Verdict::Impossible(self.last_small()?))),
            Lead::TooLarge => {
                let (line, which) = self.stop()?;
                Ok(Line::StopTooLarge { line, which })
            }
            Lead::Spent => Ok(Line::StopSpent {
                line: self.last_natural()?,
            }),
        }
    }

    // Nothing but the end of the line.
    fn end(&self) -> Result<(), LineError>
        ensures ended { OnOk result (self.now ≡ []) }
        ensures bad { IsErrOf result LineError.BadLine → self.now ≡ [] → ⊥ }
    {
        if self.is_at_end() {
            Ok(())
        } else {
            Err(LineError::BadLine)
        }
    }

    // A version of the format, and then the end of the line.
    fn version(&mut self) -> Result<u32, LineError>
        ensures read { IfOk result (λ version. Begins versions self.old version []) }
        ensures bad { IsErrOf result LineError.BadLine → NoneBegins versions self.old }
    {
        let version = self.last_small()?;
        if version == 0 {
            return Err(LineError::BadLine);
        }
        if version > LAST_VERSION {
            return Err(LineError::BadLine);
        }
        Ok(version)
    }

    // A text, up to the end of the line.
    fn text(&mut self, alloc: Global) -> Result<Text, LineError>
        ensures read { IfOk result (λ text. Begins texts self.old text []) }
        ensures bad { IsErrOf result LineError.BadLine → NoneBegins texts self.old }
    {
        let rest = self.rest();
        if has_line_feed(rest) {
            return Err(LineError::BadLine);
        }
        Ok(Text {
            bytes: Vec::from_slice(alloc, rest)?,
        })
    }

    // The number and the text that head a chain.
    fn head(&mut self, alloc: Global) -> Result<(u32, Text), LineError>
        ensures read { IfOk result (λ h. Begins heads self.old (h.0, h.1) []) }
        ensures bad { IsErrOf result LineError.BadLine → NoneBegins heads self.old }
    {
        let k = self.small().ok_or(LineError::BadLine)?;
        if k == 0 {
            return Err(LineError::BadLine);
        }
        self.literal(b" ").ok_or(LineError::BadLine)?;
        let text = self.text(alloc)?;
        Ok((k, text))
    }

    // What follows `condition `.
    fn condition(&mut self, alloc: Global) -> Result<Line, LineError>
        ensures line { IfOk result (IsBody ConditionLead self.old) }
        ensures bad { IsErrOf result LineError.BadLine
            → (l : Line) → IsBody ConditionLead self.old l → ⊥ }
    {
        let (k, text) = self.head(alloc)?;
        Ok(Line::Condition { k, text })
    }

    // What follows `goal `.
    fn goal(&mut self, alloc: Global) -> Result<Line, LineError>
        ensures line { IfOk result (IsBody GoalLead self.old) }
        ensures bad { IsErrOf result LineError.BadLine
            → (l : Line) → IsBody GoalLead self.old l → ⊥ }
    {
        let (k, text) = self.head(alloc)?;
        Ok(Line::Goal { k, text })
    }

    // The polynomial that a move or a cut gives.
    fn result(&mut self, alloc: Global) -> Result<Poly, LineError>
        ensures read { IfOk result (λ q. Begins results self.old q []) }
        ensures bad { IsErrOf result LineError.BadLine → NoneBegins results self.old }
    {
        self.literal(b" : ").ok_or(LineError::BadLine)?;
        self.polynomial(alloc)
    }

    // A lemma, and the point that it looks at.
    fn lemma(&mut self) -> Option<(u32, Option<PointId>)>
        ensures some { IfSome result (λ l. Begins lemmas self.old (l.0, l.1) self.new) }
        ensures none { IsNone result → NoneBegins lemmas self.old }
    {
        let lemma = self.small()?;
        if lemma == 0 {
            return Some((0, None));
        }
        self.literal(b" at ")?;
        let at = self.small()?;
        Some((lemma, Some(PointId(at))))
    }

    // What follows `ratio `.
    fn ratio(&mut self, alloc: Global) -> Result<Line, LineError>
        ensures line { IfOk result (IsBody RatioLead self.old) }
        ensures bad { IsErrOf result LineError.BadLine
            → (l : Line) → IsBody RatioLead self.old l → ⊥ }
    {
        let var = self.variable().ok_or(LineError::BadLine)?;
        if !is_ratio(var) {
            return Err(LineError::BadLine);
        }
        self.literal(b" by ").ok_or(LineError::BadLine)?;
        let (lemma, at) = self.lemma().ok_or(LineError::BadLine)?;
        let poly = self.result(alloc)?;
        Ok(Line::Ratio {
            var,
            lemma,
            at,
            poly,
        })
    }

    // What follows `point `.
    fn point(&mut self, alloc: Global) -> Result<Line, LineError>
        ensures line { IfOk result (IsBody PointLead self.old) }
        ensures bad { IsErrOf result LineError.BadLine
            → (l : Line) → IsBody PointLead self.old l → ⊥ }
    {
        let at = self.small().ok_or(LineError::BadLine)?;
        let poly = self.result(alloc)?;
        Ok(Line::Point {
            at: PointId(at),
            poly,
        })
    }

    // What follows `cut `.
    fn cut(&mut self, alloc: Global) -> Result<Line, LineError>
        ensures line { IfOk result (IsBody CutLead self.old) }
        ensures bad { IsErrOf result LineError.BadLine
            → (l : Line) → IsBody CutLead self.old l → ⊥ }
    {
        let by = self.factor(alloc)?;
        let poly = self.result(alloc)?;
        Ok(Line::Cut { by, poly })
    }

    // A number of 32 bits, and then the end of the line.
    fn last_small(&mut self) -> Result<u32, LineError>
        ensures read { IfOk result (λ n. Begins (last_numbers 32) self.old n []) }
        ensures bad { IsErrOf result LineError.BadLine → NoneBegins (last_numbers 32) self.old }
    {
        let number = self.small().ok_or(LineError::BadLine)?;
        self.end()?;
        Ok(number)
    }

    // A number of 64 bits, and then the end of the line.
    fn last_natural(&mut self) -> Result<u64, LineError>
        ensures read { IfOk result (λ n. Begins (last_numbers 64) self.old n []) }
        ensures bad { IsErrOf result LineError.BadLine → NoneBegins (last_numbers 64) self.old }
    {
        let number = self.natural().ok_or(LineError::BadLine)?;
        self.end()?;
        Ok(number)
    }

    // The line of a stop, and the bound that is passed.
    fn stop(&mut self) -> Result<(u64, Which), LineError>
        ensures read { IfOk result (λ s. Begins stops self.old (s.0, s.1) []) }
        ensures bad { IsErrOf result LineError.BadLine → NoneBegins stops self.old }
    {
        let line = self.natural().ok_or(LineError::BadLine)?;
        if self.is_rest(b" norm") {
            Ok((line, Which::Norm))
        } else if self.is_rest(b" degree") {
            Ok((line, Which::Degree))
        } else {
            Err(LineError::BadLine)
        }
    }
}

// Whether the text has a line feed.
fn has_line_feed(text: &[u8]) -> bool
    ensures none { result ≡ false → HasNoLineFeed text.now }
    ensures some { result ≡ true → HasNoLineFeed text.now → ⊥ }
{
    has_byte(text, b'\n')
}

// Whether the text has this byte.
fn has_byte(text: &[u8], byte: u8) -> bool
    ensures { result ≡ list_any (λ b. b == byte) text.now }
{
    text.iter().any(|b| *b == byte)
}

// Whether the variable is a ratio.
fn is_ratio(variable: Var) -> bool
    ensures { IsTrue result ↔ IsRatio variable }
{
    matches!(variable, Var::R(..))
}
