//! The program that a text spells.

ghost use Rattle.std.specs.Prelude.{◌≡◌, ◌*◌, ◌≤◌, IfOk, MatchResult, length};
ghost use Rattle.geo_lexer.specs.declared.token_types.Fault.{Fault};
ghost use Rattle.geo_lexer.specs.Tokens.{IsLexed};
ghost use Rattle.geo_parser.specs.Refusals.{IsRefused};
ghost use Rattle.geo_program.specs.Programs.{SameProgram, Spells, program_text};
ghost use Rattle.geo_program.specs.declared.program_type.Program.{Program};

use crate::cursor::Cursor;
use crate::errors::ParseError;
use crate::reader::Reader;
use geo_lexer::{Fault, Token, tokens};
use geo_program::Program;
use std::alloc::Global;

/// The program that the bytes spell. `Syntax` comes exactly where they spell none. Of the canonical
/// text of a program the answer is that program, or want of memory.
pub fn parse(alloc: Global, bytes: &[u8]) -> Result<Program, ParseError>
    requires { length bytes.now ≤ 67108864 }
    ensures spelt { IfOk result (λ p. Spells bytes.now p) }
    ensures short { IfOk result (λ p. length (program_text p) ≤ 4 * length bytes.now) }
    ensures refused { (f : Fault) → result ≡ Err (ParseError.Syntax f) → IsRefused bytes.now f }
    ensures spells_none { (f : Fault) → result ≡ Err (ParseError.Syntax f)
        → (p : Program) → Spells bytes.now p → ⊥ }
    ensures same { (p : Program) → Spells bytes.now p → IfOk result (SameProgram p) }
    ensures printed { (p : Program) → bytes.now ≡ program_text p
        → MatchResult result (SameProgram p) (λ e. e ≡ ParseError.NoMemory) }
{
    let lexed = tokens(alloc, bytes)?;
    parse_tokens(alloc, bytes, &lexed.tokens.items, lexed.fault)
}

// The program that the bytes spell, which have these tokens and then perhaps what is no token.
fn parse_tokens(
    alloc: Global,
    bytes: &[u8],
    tokens: &[Token],
    stop: Option<Fault>,
) -> Result<Program, ParseError>
    requires length { length bytes.now ≤ 67108864 }
    requires lexed { IsLexed bytes.now tokens.now stop }
    ensures spelt { IfOk result (λ p. Spells bytes.now p) }
    ensures short { IfOk result (λ p. length (program_text p) ≤ 4 * length bytes.now) }
    ensures refused { (f : Fault) → result ≡ Err (ParseError.Syntax f) → IsRefused bytes.now f }
{
    let cursor = Cursor::new(bytes, tokens, stop);
    let mut reader = Reader::new(alloc, cursor)?;
    let commands = reader.commands(alloc)?;
    let statement = reader.statement()?;
    Ok(Program {
        names: reader.names.into_names(),
        terms: reader.terms,
        commands,
        statement,
    })
}
