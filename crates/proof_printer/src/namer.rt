//! The names of a program's points, parameters and variables.

ghost use Rattle.std.specs.Prelude.{codes, ◌≡◌, [], ◌∷◌, ◌++◌, IfOk, OnOk, map};
ghost use Rattle.geo_lowering.specs.Lowering.{IsLowered};
ghost use Rattle.geo_lowering.specs.Parts.{form_of};
ghost use Rattle.geo_lowering.specs.declared.version.Version.{Version};
ghost use Rattle.geo_program.specs.Programs.{source_of};
ghost use Rattle.proof_printer.specs.Inner.Names.{naming_in};
ghost use Rattle.proof_printer.specs.Naming.{naming_of, points_text, variable_text};

use crate::name_list::NameList;
use geo_lowering::Lowered;
use geo_points::{NoMemory, ParamId, PointId};
use geo_poly::Var;
use geo_program::{NameKind, Program, texts_of};
use std::alloc::Global;

/// The names of points and parameters by number.
#[derive(Drop)]
pub(crate) struct Namer {
    points: NameList,
    params: NameList,
}

impl Namer {
    /// The names of a program that is lowered so.
    pub fn new(alloc: Global, program: &Program, lowered: &Lowered) -> Result<Namer, NoMemory>
        ensures { (version : Version) → IsLowered version (source_of program.now) (form_of lowered.now)
            → IfOk result (λ namer. naming_in namer ≡ naming_of version (source_of program.now)) }
    {
        let names = program.names.as_slice();
        let points = texts_of(alloc, names, NameKind::Point)?;
        let params = texts_of(alloc, names, NameKind::Param)?;
        let point_places = point_numbers(alloc, &lowered.points.items)?;
        let param_places = param_numbers(alloc, &lowered.params.items)?;
        Ok(Namer {
            points: NameList::new(alloc, b"#", &point_places, &points)?,
            params: NameList::new(alloc, b"#t", &param_places, &params)?,
        })
    }

    /// Appends the name of a variable.
    pub fn push_variable(&self, alloc: Global, out: &mut Vec<u8>, v: Var) -> Result<(), NoMemory>
        ensures { OnOk result (out.new.items
            ≡ out.old.items ++ variable_text (naming_in self.now) v) }
    {
        match v {
            Var::R(a, b, c, d) => self.push_ratio(alloc, out, [a, b], [c, d]),
            Var::S(a, b, c) => self.push_quantity(alloc, out, b"S(", a, &[b, c]),
            Var::P(a, b, c) => self.push_quantity(alloc, out, b"P(", a, &[b, c]),
            Var::X(a) => self.push_quantity(alloc, out, b"x(", a, &[]),
            Var::Y(a) => self.push_quantity(alloc, out, b"y(", a, &[]),
            Var::T(t) => self.params.push(alloc, out, t.0),
        }
    }

    /// Appends a letter with a brace, points with commas between them, and a brace.
    fn push_quantity(
        &self,
        alloc: Global,
        out: &mut Vec<u8>,
        letter: &[u8],
        first: PointId,
        others: &[PointId],
    ) -> Result<(), NoMemory>
        ensures { OnOk result (out.new.items ≡ out.old.items
            ++ (letter.now ++ points_text (naming_in self.now) (first ∷ others.now) ++ codes ")")) }
    {
        out.extend_from_slice(letter)?;
        self.push_points(alloc, out, first, others)?;
        out.push(b')')?;
        Ok(())
    }

    /// Appends the ratio of two segments.
    fn push_ratio(
        &self,
        alloc: Global,
        out: &mut Vec<u8>,
        one: [PointId; 2],
        other: [PointId; 2],
    ) -> Result<(), NoMemory>
        ensures { OnOk result (out.new.items ≡ out.old.items ++ (codes "R("
            ++ points_text (naming_in self.now) one ++ codes ";"
            ++ points_text (naming_in self.now) other ++ codes ")")) }
    {
        out.extend_from_slice(b"R(")?;
        self.push_points(alloc, out, one[0], &[one[1]])?;
        out.push(b';')?;
        self.push_points(alloc, out, other[0], &[other[1]])?;
        out.push(b')')?;
        Ok(())
    }

    /// Appends points with commas between them.
    fn push_points(
        &self,
        alloc: Global,
        out: &mut Vec<u8>,
        first: PointId,
        others: &[PointId],
    ) -> Result<(), NoMemory>
        ensures { OnOk result (out.new.items
            ≡ out.old.items ++ points_text (naming_in self.now) (first ∷ others.now)) }
    {
        self.points.push(alloc, out, first.0)?;
        for point in others {
            out.push(b',')?;
            self.points.push(alloc, out, point.0)?;
        }
        Ok(())
    }
}

/// The numbers of points.
fn point_numbers(alloc: Global, points: &[PointId]) -> Result<Vec<u32>, NoMemory>
    ensures { IfOk result (λ numbers. numbers.items ≡ map (λ a. a.0) points.now) }
{
    Ok(points.iter().map(|a| a.0).collect(alloc)?)
}

/// The numbers of parameters.
fn param_numbers(alloc: Global, params: &[ParamId]) -> Result<Vec<u32>, NoMemory>
    ensures { IfOk result (λ numbers. numbers.items ≡ map (λ t. t.0) params.now) }
{
    Ok(params.iter().map(|t| t.0).collect(alloc)?)
}
