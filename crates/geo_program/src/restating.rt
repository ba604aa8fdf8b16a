//! A program with another statement.

ghost use Rattle.std.specs.Prelude.{◌≡◌, ◌≤◌, All, IfOk, length};
ghost use Rattle.geo_program.specs.Forms.{statement_form};
ghost use Rattle.geo_program.specs.Programs.{program_text, source_of};
ghost use Rattle.geo_program.specs.Relations.{IsRelation, with_statement};
ghost use Rattle.geo_program.specs.WellFormed.{IsArgument, empty_scope, scope_of};

use crate::commands::Commands;
use crate::program_type::Program;
use crate::statements::Statement;
use geo_points::NoMemory;
use std::alloc::Global;

impl Program {
    /// The program with the same names and commands, and with this statement.
    pub fn with_statement(&self, alloc: Global, statement: Statement) -> Result<Program, NoMemory>
        requires relation { IsRelation statement }
        requires points { All (IsArgument (scope_of empty_scope self.now.names))
            (statement_form self.now.terms statement).arguments }
        requires short { length (program_text self.now) ≤ 67108864 }
        ensures { IfOk result (λ program.
            source_of program ≡ with_statement (source_of self.now) statement) }
    {
        let names = self.names.copy(alloc)?;
        let terms = self.terms.copy()?;
        let items = Vec::from_slice(alloc, self.commands.as_slice())?;
        let commands = Commands { items };
        Ok(Program {
            names,
            terms,
            commands,
            statement,
        })
    }
}
