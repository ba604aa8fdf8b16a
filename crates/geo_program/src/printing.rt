//! The canonical text of a program.

ghost use Rattle.std.specs.Prelude.{◌≡◌, IfOk};
ghost use Rattle.geo_program.specs.Programs.{Spells, program_text};

use crate::name_table::NameTable;
use crate::printer::Printer;
use crate::program_type::Program;
use geo_base::Text;
use geo_points::NoMemory;
use std::alloc::Global;

/// The canonical text: one command a line and then the statement, single spaces between all tokens,
/// numbers in canonical decimal, no sketch numbers and no comments, and a line feed after each
/// line.
pub fn print(alloc: Global, program: &Program) -> Result<Text, NoMemory>
    ensures text { IfOk result (λ text. text ≡ program_text program.now) }
    ensures spelt { IfOk result (λ text. ∥ Spells text program.now ∥₁) }
{
    // `len` also says that the store is valid.
    let _ = program.terms.len();
    let names = program.names.as_slice();
    let commands = program.commands.as_slice();
    let printer = Printer {
        names: NameTable::new(alloc, names)?,
        terms: &program.terms,
    };
    let mut bytes = Vec::new(alloc);
    printer.push_commands(alloc, &mut bytes, names, commands)?;
    printer.push_statement(alloc, &mut bytes, program.statement)?;
    bytes.push(b'\n')?;
    Ok(Text { bytes })
}
