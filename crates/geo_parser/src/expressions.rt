//! Reading an expression.

ghost use Rattle.std.specs.Prelude.{◌≡◌, ◌+◌, ◌≤◌, ◌∷◌, [], ◌++◌, false, true, IfOk, IsTrue};
ghost use Rattle.geo_lexer.specs.declared.token_types.Fault.{Fault};
ghost use Rattle.geo_parser.specs.Forms.{a_number, close_slot, expression_slot, open_slot, side};
ghost use Rattle.geo_parser.specs.Inner.Reads.{ReadsExpression, ReadsFormed, ReadsNode, ReadsPart};
ghost use Rattle.geo_parser.specs.Inner.Reads.{ReadsParts, Refuses, extent};
ghost use Rattle.geo_parser.specs.Inner.StatementWords.{expression_due};

use crate::cursor::Symbol;
use crate::errors::{ParseError, Refusal};
use crate::expression_words::ExpressionWord;
use crate::reader::Reader;
use geo_points::{ParamId, TermId};
use geo_program::NameKind;
use geo_terms::Node;

impl<'a> Reader<'a> {
    /// An expression that stands between braces of its own: a side of an equation.
    pub fn side(&mut self) -> Result<TermId, ParseError>
        requires { extent self.old ≤ 67108864 }
        ensures ok { IfOk result (ReadsPart 0 true self.old self.new) }
        ensures refused { (f : Fault) → result ≡ Err (ParseError.Syntax f)
            → Refuses side self.old f }
    {
        self.part(0, true)
    }

    /// The number of a step.
    pub fn number(&mut self) -> Result<TermId, ParseError>
        requires { extent self.old ≤ 67108864 }
        ensures ok { IfOk result (ReadsExpression 0 false self.old self.new) }
        ensures refused { (f : Fault) → result ≡ Err (ParseError.Syntax f)
            → Refuses (a_number ∷ []) self.old f }
    {
        self.expression(0, false)
    }

    // `{ e }`, the brace being that of this level.
    #[cycle(expression)]
    fn part(&mut self, level: u32, ratios: bool) -> Result<TermId, ParseError>
        requires level { level ≤ 129 }
        requires room { extent self.old ≤ 67108864 }
        ensures ok { IfOk result (ReadsPart level ratios self.old self.new) }
        ensures refused { (f : Fault) → result ≡ Err (ParseError.Syntax f)
            → Refuses
            (open_slot level ∷ expression_slot level ratios ∷ close_slot ∷ []) self.old f }
    {
        self.open(level)?;
        let term = self.expression(level, ratios)?;
        self.close()?;
        Ok(term)
    }

    // An expression inside so many braces, which may have a ratio where `ratios` tells so.
    #[cycle(expression)]
    fn expression(&mut self, level: u32, ratios: bool) -> Result<TermId, ParseError>
        requires level { level ≤ 128 }
        requires room { extent self.old ≤ 67108864 }
        ensures ok { IfOk result (ReadsExpression level ratios self.old self.new) }
        ensures refused { (f : Fault) → result ≡ Err (ParseError.Syntax f)
            → Refuses (expression_slot level ratios ∷ []) self.old f }
    {
        let node = self.node(level, ratios)?;
        let term = self.terms.intern(node)?;
        Ok(term)
    }

    // The node of an expression, whose parts are in the store.
    #[cycle(expression)]
    fn node(&mut self, level: u32, ratios: bool) -> Result<Node, ParseError>
        requires level { level ≤ 128 }
        requires room { extent self.old ≤ 67108864 }
        ensures ok { IfOk result (ReadsNode level ratios self.old self.new) }
        ensures refused { (f : Fault) → result ≡ Err (ParseError.Syntax f)
            → Refuses (expression_slot level ratios ∷ []) self.old f }
    {
        match self.cursor.peek() {
            Some(Symbol::Number(number)) => {
                self.cursor.advance();
                Ok(Node::Int(number))
            }
            Some(Symbol::Word(word)) => match ExpressionWord::of(word) {
                Some(form) => {
                    if !form.may_stand(ratios) {
                        return Err(self.refuse(Refusal::RatioNotAllowed));
                    }
                    self.cursor.advance();
                    self.formed(form, level, ratios)
                }
                None => Ok(Node::Param(ParamId(self.name(NameKind::Param)?))),
            },
            _ => Err(self.refuse(Refusal::Expected)),
        }
    }

    // What stands behind the word of an expression.
    #[cycle(expression)]
    fn formed(&mut self, form: ExpressionWord, level: u32, ratios: bool) -> Result<Node, ParseError>
        requires level { level ≤ 128 }
        requires room { extent self.old ≤ 67108864 }
        requires allowed { form ≡ ExpressionWord.Ratio → IsTrue ratios }
        ensures ok { IfOk result (ReadsFormed form level ratios self.old self.new) }
        ensures refused { (f : Fault) → result ≡ Err (ParseError.Syntax f)
            → Refuses (expression_due level ratios form) self.old f }
    {
        match form {
            ExpressionWord::SignedArea => {
                let (a, b, c) = self.three_points()?;
                Ok(Node::S(a, b, c))
            }
            ExpressionWord::PythagorasDifference => {
                let (a, b, c) = self.three_points()?;
                Ok(Node::P(a, b, c))
            }
            ExpressionWord::Ratio => {
                let (a, b, c, d) = self.four_points()?;
                Ok(Node::R(a, b, c, d))
            }
            ExpressionWord::Neg => {
                let e = self.part(level + 1, ratios)?;
                Ok(Node::Neg(e))
            }
            ExpressionWord::Sum => {
                let (e, f) = self.two_parts(level + 1, ratios, ratios)?;
                Ok(Node::Add(e, f))
            }
            ExpressionWord::Sub => {
                let (e, f) = self.two_parts(level + 1, ratios, ratios)?;
                Ok(Node::Sub(e, f))
            }
            ExpressionWord::Mult => {
                let (e, f) = self.two_parts(level + 1, ratios, ratios)?;
                Ok(Node::Mul(e, f))
            }
            ExpressionWord::Div => {
                let (e, f) = self.two_parts(level + 1, ratios, false)?;
                Ok(Node::Div(e, f))
            }
        }
    }

    // `{ e } { f }`, each of which may have a ratio where its flag tells so.
    #[cycle(expression)]
    fn two_parts(
        &mut self,
        level: u32,
        first: bool,
        second: bool,
    ) -> Result<(TermId, TermId), ParseError>
        requires level { level ≤ 129 }
        requires room { extent self.old ≤ 67108864 }
        ensures ok { IfOk result (λ p. ReadsParts level first second self.old self.new p.0 p.1) }
        ensures refused { (f : Fault) → result ≡ Err (ParseError.Syntax f)
            → Refuses ((open_slot level ∷ expression_slot level first ∷ close_slot ∷ [])
            ++ (open_slot level ∷ expression_slot level second ∷ close_slot ∷ [])) self.old f }
    {
        let e = self.part(level, first)?;
        let f = self.part(level, second)?;
        Ok((e, f))
    }
}
