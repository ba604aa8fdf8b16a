//! Reading what is due.

ghost use Rattle.std.specs.Prelude.{◌≡◌, ◌+◌, ◌≤◌, ◌∷◌, [], IfOk, None, OnOk};
ghost use Rattle.geo_lexer.specs.declared.token_types.Fault.{Fault};
ghost use Rattle.geo_lexer.specs.Lexemes.{close_brace, open_brace};
ghost use Rattle.geo_parser.specs.Inner.Coming.{fault_here};
ghost use Rattle.geo_parser.specs.Inner.Dictionaries.{IsNumbered};
ghost use Rattle.geo_parser.specs.Forms.{a_line, a_point, close_slot, end_slot, name_slot};
ghost use Rattle.geo_parser.specs.Forms.{open_slot};
ghost use Rattle.geo_parser.specs.Inner.Symbols.{refusal_number};
ghost use Rattle.geo_parser.specs.Inner.Reads.{Reads, ReadsArguments, ReadsName, Refuses};
ghost use Rattle.geo_program.specs.Forms.{line_argument, point_argument};

use crate::cursor::{Cursor, Symbol};
use crate::dictionary::Dictionary;
use crate::errors::{ParseError, Refusal};
use geo_points::PointId;
use geo_program::{LineId, NameKind};
use geo_terms::Terms;
use std::alloc::Global;

/// How deep braces may stand inside one another in an expression.
const DEEPEST: u32 = 128;

/// A reader of a program: what is still to be read, and what is read so far.
#[derive(Drop)]
pub struct Reader<'a> {
    /// The tokens to come.
    pub cursor: Cursor<'a>,
    /// The names that are declared.
    pub names: Dictionary<'a>,
    /// The terms.
    pub terms: Terms,
    /// How many points the commands make, those of constructions counted.
    pub points: u32,
}

impl<'a> Reader<'a> {
    /// A reader at the beginning of a program.
    pub fn new(alloc: Global, cursor: Cursor<'a>) -> Result<Reader<'a>, ParseError>
        ensures ok { IfOk result (λ s. s
            ≡ record { cursor = cursor.entry; names = []; terms = []; points = 0 }) }
        ensures err { (f : Fault) → result ≡ Err (ParseError.Syntax f) → ⊥ }
    {
        Ok(Reader {
            cursor,
            names: Dictionary::new(alloc),
            terms: Terms::new(alloc)?,
            points: 0,
        })
    }

    /// Refuses the next token.
    pub fn refuse(&self, refusal: Refusal) -> ParseError
        ensures { result ≡ ParseError.Syntax (fault_here (refusal_number refusal)
            self.now.cursor.tokens self.now.cursor.end self.now.cursor.stop) }
    {
        self.cursor.refuse(refusal)
    }

    /// A declared point.
    pub fn point(&mut self) -> Result<PointId, ParseError>
        ensures point { IfOk result
            (λ a. ReadsArguments (point_argument a ∷ []) self.old self.new) }
        ensures refused { (f : Fault) → result ≡ Err (ParseError.Syntax f)
            → Refuses (a_point ∷ []) self.old f }
    {
        Ok(PointId(self.name(NameKind::Point)?))
    }

    /// A declared line.
    pub fn line(&mut self) -> Result<LineId, ParseError>
        ensures line { IfOk result (λ a. ReadsArguments (line_argument a ∷ []) self.old self.new) }
        ensures refused { (f : Fault) → result ≡ Err (ParseError.Syntax f)
            → Refuses (a_line ∷ []) self.old f }
    {
        Ok(LineId(self.name(NameKind::Line)?))
    }

    /// The number of a declared name of this kind.
    pub fn name(&mut self, kind: NameKind) -> Result<u32, ParseError>
        ensures number { IfOk result (ReadsName kind self.old self.new) }
        ensures refused { (f : Fault) → result ≡ Err (ParseError.Syntax f)
            → Refuses (name_slot kind ∷ []) self.old f }
    {
        let Some(Symbol::Word(word)) = self.cursor.peek() else {
            return Err(self.refuse(Refusal::Expected));
        };
        match self.names.number(kind, word) {
            Ok(number) => {
                self.cursor.advance();
                Ok(number)
            }
            Err(refusal) => Err(self.refuse(refusal)),
        }
    }

    /// Two declared points.
    pub fn two_points(&mut self) -> Result<(PointId, PointId), ParseError>
        ensures points { IfOk result (λ p.
            ReadsArguments (point_argument p.0 ∷ point_argument p.1 ∷ []) self.old self.new) }
        ensures refused { (f : Fault) → result ≡ Err (ParseError.Syntax f)
            → Refuses (a_point ∷ a_point ∷ []) self.old f }
    {
        let a = self.point()?;
        let b = self.point()?;
        Ok((a, b))
    }

    /// Three declared points.
    pub fn three_points(&mut self) -> Result<(PointId, PointId, PointId), ParseError>
        ensures points { IfOk result (λ p. ReadsArguments
            (point_argument p.0 ∷ point_argument p.1 ∷ point_argument p.2 ∷ []) self.old self.new) }
        ensures refused { (f : Fault) → result ≡ Err (ParseError.Syntax f)
            → Refuses (a_point ∷ a_point ∷ a_point ∷ []) self.old f }
    {
        let a = self.point()?;
        let (b, c) = self.two_points()?;
        Ok((a, b, c))
    }

    /// Four declared points.
    pub fn four_points(&mut self) -> Result<(PointId, PointId, PointId, PointId), ParseError>
        ensures points { IfOk result (λ p. ReadsArguments
            (point_argument p.0 ∷ point_argument p.1 ∷ point_argument p.2 ∷ point_argument p.3 ∷ [])
            self.old self.new) }
        ensures refused { (f : Fault) → result ≡ Err (ParseError.Syntax f)
            → Refuses (a_point ∷ a_point ∷ a_point ∷ a_point ∷ []) self.old f }
    {
        let (a, b) = self.two_points()?;
        let (c, d) = self.two_points()?;
        Ok((a, b, c, d))
    }

    /// `{`, the brace of this level inside an expression.
    pub fn open(&mut self, level: u32) -> Result<(), ParseError>
        ensures read { OnOk result
            (Reads (open_slot level ∷ []) self.old self.new (open_brace ∷ [])) }
        ensures level { OnOk result (level ≤ 128) }
        ensures refused { (f : Fault) → result ≡ Err (ParseError.Syntax f)
            → Refuses (open_slot level ∷ []) self.old f }
    {
        let Some(Symbol::Open) = self.cursor.peek() else {
            return Err(self.refuse(Refusal::Expected));
        };
        if level > DEEPEST {
            return Err(self.refuse(Refusal::TooDeep));
        }
        self.cursor.advance();
        Ok(())
    }

    /// `}`
    pub fn close(&mut self) -> Result<(), ParseError>
        ensures read { OnOk result (Reads (close_slot ∷ []) self.old self.new (close_brace ∷ [])) }
        ensures refused { (f : Fault) → result ≡ Err (ParseError.Syntax f)
            → Refuses (close_slot ∷ []) self.old f }
    {
        let Some(Symbol::Close) = self.cursor.peek() else {
            return Err(self.refuse(Refusal::Expected));
        };
        self.cursor.advance();
        Ok(())
    }

    /// Nothing but the end of the text.
    pub fn end(&self) -> Result<(), ParseError>
        ensures ended { OnOk result ((self.now.cursor.tokens ≡ [])
            × (self.now.cursor.stop ≡ None)) }
        ensures refused { (f : Fault) → result ≡ Err (ParseError.Syntax f)
            → Refuses (end_slot ∷ []) self.now f }
    {
        if self.cursor.is_at_end() {
            Ok(())
        } else {
            Err(self.refuse(Refusal::AfterStatement))
        }
    }
}
