//! Reading the statement.

ghost use Rattle.std.specs.Prelude.{◌≡◌, ◌≤◌, ◌∷◌, [], IfOk};
ghost use Rattle.geo_lexer.specs.declared.token_types.Fault.{Fault};
ghost use Rattle.geo_parser.specs.Forms.{statement_slot};
ghost use Rattle.geo_parser.specs.Inner.Reads.{ReadsStated, ReadsStatement, ReadsStatementWord};
ghost use Rattle.geo_parser.specs.Inner.Reads.{Refuses, extent, statement_slots};
ghost use Rattle.geo_parser.specs.Inner.StatementWords.{statement_due};

use crate::cursor::Symbol;
use crate::errors::{ParseError, Refusal};
use crate::reader::Reader;
use crate::statement_words::StatementWord;
use geo_program::Statement;

impl<'a> Reader<'a> {
    /// `{ STATEMENT }` and the end of the text.
    pub fn statement(&mut self) -> Result<Statement, ParseError>
        requires { extent self.old ≤ 67108864 }
        ensures ok { IfOk result (ReadsStatement self.old self.new) }
        ensures refused { (f : Fault) → result ≡ Err (ParseError.Syntax f)
            → Refuses statement_slots self.old f }
    {
        self.open(0)?;
        let word = self.statement_word()?;
        let statement = self.stated(word)?;
        self.close()?;
        self.end()?;
        Ok(statement)
    }

    // The word that begins the statement.
    fn statement_word(&mut self) -> Result<StatementWord, ParseError>
        ensures ok { IfOk result (λ word. ReadsStatementWord word self.old self.new) }
        ensures refused { (f : Fault) → result ≡ Err (ParseError.Syntax f)
            → Refuses (statement_slot ∷ []) self.old f }
    {
        let Some(Symbol::Word(word)) = self.cursor.peek() else {
            return Err(self.refuse(Refusal::Expected));
        };
        match StatementWord::of(word) {
            Some(statement) => {
                self.cursor.advance();
                Ok(statement)
            }
            None => Err(self.refuse(Refusal::Expected)),
        }
    }

    // What stands behind the word.
    fn stated(&mut self, word: StatementWord) -> Result<Statement, ParseError>
        requires { extent self.old ≤ 67108864 }
        ensures ok { IfOk result (ReadsStated word self.old self.new) }
        ensures refused { (f : Fault) → result ≡ Err (ParseError.Syntax f)
            → Refuses (statement_due word) self.old f }
    {
        match word {
            StatementWord::Equal => {
                let e = self.side()?;
                let f = self.side()?;
                Ok(Statement::Equal { e, f })
            }
            StatementWord::Identical => {
                let (a, b) = self.two_points()?;
                Ok(Statement::Identical { a, b })
            }
            StatementWord::Triple(word) => {
                let (a, b, c) = self.three_points()?;
                Ok(word.on(a, b, c))
            }
            StatementWord::Quadruple(word) => {
                let (a, b, c, d) = self.four_points()?;
                Ok(word.on(a, b, c, d))
            }
        }
    }
}
