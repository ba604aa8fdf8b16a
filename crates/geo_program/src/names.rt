//! The names that a program declares.

ghost use Rattle.std.specs.Prelude.{◌≡◌, IfOk};

use geo_base::Text;
use geo_points::NoMemory;
use std::alloc::Global;
use std::marker::Model;

/// What a name names.
#[derive(Clone, Copy, Debug, PartialEq, Eq)]
pub enum NameKind {
    /// A point.
    Point,
    /// A parameter.
    Param,
    /// A line.
    Line,
}

/// A declared name.
#[derive(Debug, Drop)]
pub struct Name {
    /// Its bytes.
    pub text: Text,
    /// What it names.
    pub kind: NameKind,
}

impl Name {
    /// Its bytes.
    pub fn bytes(&self) -> &[u8]
        ensures { result.now ≡ self.now.text }
    {
        self.text.bytes.as_slice()
    }

    /// The same name.
    pub fn copy(&self, alloc: Global) -> Result<Name, NoMemory>
        ensures { IfOk result (λ name. name ≡ self.now) }
    {
        let bytes = Vec::from_slice(alloc, &self.text.bytes)?;
        Ok(Name {
            text: Text { bytes },
            kind: self.kind,
        })
    }
}

/// Names, in order of declaration. Points, parameters and lines are each counted from 0. Contracts
/// see the list.
#[derive(Debug, Drop)]
pub struct Names {
    /// The names.
    pub items: Vec<Name>,
}

impl Model for Names {
    ghost use Rattle.std.specs.Prelude.{List};
    ghost use Rattle.geo_program.specs.declared.names.Name.{Name};

    ghost Value = { List Name };

    ghost view = { λ names. names.items.items };
}

impl Names {
    /// The names, in order.
    pub fn as_slice(&self) -> &[Name]
        ensures { result.now ≡ self.now }
    {
        self.items.as_slice()
    }

    /// The same names.
    pub fn copy(&self, alloc: Global) -> Result<Names, NoMemory>
        ensures { IfOk result (λ names. names ≡ self.now) }
    {
        let items = copied_names(alloc, &self.items)?;
        Ok(Names { items })
    }
}

// The same names.
fn copied_names(alloc: Global, names: &[Name]) -> Result<Vec<Name>, NoMemory>
    ensures { IfOk result (λ copies. copies.items ≡ names.now) }
{
    let mut items = Vec::new(alloc);
    for name in names {
        items.push(name.copy(alloc)?)?;
    }
    Ok(items)
}
