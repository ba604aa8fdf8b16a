//! The names of a program by kind and number.

ghost use Rattle.std.specs.Prelude.{◌≡◌, ◌<◌, map, IfOk};
ghost use Rattle.geo_program.specs.Names.{name_text, names_of};
ghost use Rattle.geo_program.specs.Inner.Printing.{whole_scope};
ghost use Rattle.geo_program.specs.declared.names.NameKind.TheVariants as kind;

use crate::commands::LineId;
use crate::names::{Name, NameKind};
use geo_points::{NoMemory, ParamId, PointId};
use std::alloc::Global;
use std::marker::Model;

/// The names of a program, numbered by kind once, so that no look-up searches. Contracts see the
/// list of all names.
#[derive(Drop)]
pub struct NameTable<'a> {
    names: &'a [Name],
    points: Vec<&'a [u8]>,
    params: Vec<&'a [u8]>,
    lines: Vec<&'a [u8]>,
}

impl<'a> Model for NameTable<'a> {
    ghost use Rattle.std.specs.Prelude.{List};
    ghost use Rattle.geo_program.specs.declared.names.Name.{Name};

    ghost Value = { List Name };

    ghost use Rattle.geo_program.specs.Inner.Printing.{IsNumbered};

    ghost view = { λ table. table.names.now };

    ghost invariant = { λ table.
        IsNumbered table.names.now table.points.items table.params.items table.lines.items };
}

impl<'a> NameTable<'a> {
    /// The table of these names.
    pub fn new(alloc: Global, names: &'a [Name]) -> Result<NameTable<'a>, NoMemory>
        ensures { IfOk result (λ table. table ≡ names.now) }
    {
        let points = texts_of(alloc, names, NameKind::Point)?;
        let params = texts_of(alloc, names, NameKind::Param)?;
        let lines = texts_of(alloc, names, NameKind::Line)?;
        Ok(NameTable {
            names,
            points,
            params,
            lines,
        })
    }

    /// The name of a point.
    pub fn point(&self, a: PointId) -> &[u8]
        requires { a.0 < (whole_scope self.now).points }
        ensures { result.now ≡ name_text kind.Point self.now a.0 }
    {
        self.points[a.0 as usize]
    }

    /// The name of a parameter.
    pub fn param(&self, t: ParamId) -> &[u8]
        requires { t.0 < (whole_scope self.now).params }
        ensures { result.now ≡ name_text kind.Param self.now t.0 }
    {
        self.params[t.0 as usize]
    }

    /// The name of a line.
    pub fn line(&self, a: LineId) -> &[u8]
        requires { a.0 < (whole_scope self.now).lines }
        ensures { result.now ≡ name_text kind.Line self.now a.0 }
    {
        self.lines[a.0 as usize]
    }
}

/// The texts of the names of a kind, in order of declaration.
pub fn texts_of<'a>(
    alloc: Global,
    names: &'a [Name],
    kind: NameKind,
) -> Result<Vec<&'a [u8]>, NoMemory>
    ensures { IfOk result (λ texts. map (λ text. text.now) texts.items ≡ names_of kind names.now) }
{
    let mut texts = Vec::new(alloc);
    for name in names {
        if name.kind == kind {
            texts.push(name.bytes())?;
        }
    }
    Ok(texts)
}
