//! The program behind the names.

ghost use Rattle.std.specs.Prelude.{◌≤◌, ℕ, IfErr, IfOk, length};
ghost use Rattle.geo_program.specs.Programs.{Spells};
ghost use Rattle.geo_library.specs.Inner.Answers.{IsFaultAt};

use crate::errors::CiteError;
use geo_lexer::Fault;
use geo_parser::{ParseError, parse};
use geo_program::Program;
use std::alloc::Global;

/// The citing program, whose text begins at this place of the input.
pub fn case_of(alloc: Global, text: &[u8], start: u64) -> Result<Program, CiteError>
    requires { length text.now ≤ 67108864 }
    ensures spelt { IfOk result (Spells text.now) }
    ensures refused { IfErr result (IsFaultAt text.now start) }
{
    match parse(alloc, text) {
        Ok(program) => Ok(program),
        Err(ParseError::Syntax(fault)) => match start.checked_add(fault.place) {
            Some(place) => Err(CiteError::Syntax(Fault {
                refusal: fault.refusal,
                place,
            })),
            // No input is so long.
            None => Err(CiteError::NoMemory),
        },
        Err(ParseError::NoMemory) => Err(CiteError::NoMemory),
    }
}
