//! Programs.

ghost use Rattle.std.specs.Prelude.{◌≤◌, length};
ghost use Rattle.geo_program.specs.Spelling.{SpellsSource};
ghost use Rattle.geo_program.specs.CanonicalText.{canonical_text};

use crate::commands::Commands;
use crate::names::Names;
use crate::statements::Statement;
use geo_terms::Terms;

/// A program: the names that it declares, its commands, each of which makes one of the names or is an
/// assumption, and its statement. The two numbers that may follow a point's name mean nothing and are not kept.
pub struct Program {
    /// The names, in order of declaration.
    pub names: Names,
    /// The store of the terms that commands and the statement name by index.
    pub terms: Terms,
    /// The commands. Those that make something make what the names name, in their order.
    pub commands: Commands,
    /// The statement.
    pub statement: Statement,
    /// Its canonical text spells it.
    ghost spelt: { ∥ SpellsSource (canonical_text
        record { names = names; nodes = terms; commands = commands; statement = statement })
        (record { names = names; nodes = terms; commands = commands; statement = statement }) ∥₁ },
    /// Its canonical text is at most 268,435,456 bytes long.
    ghost short: { length (canonical_text
        (record { names = names; nodes = terms; commands = commands; statement = statement }))
        ≤ 268435456 },
}

/// By hand, so that a caller's proof sees one call where a program is let go.
impl Drop for Program {
    fn drop(self) {
        let Program {
            names: _,
            terms: _,
            commands: _,
            statement: _,
        } = self;
    }
}
