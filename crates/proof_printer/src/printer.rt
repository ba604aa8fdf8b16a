//! A whole log, line by line.

ghost use Rattle.std.specs.Prelude.{◌≡◌, IfOk};
ghost use Rattle.geo_program.specs.Programs.{source_of};
ghost use Rattle.proof_printer.specs.Inner.Names.{naming_in};
ghost use Rattle.proof_printer.specs.Inner.Printing.{IsConstructionOf, IsPrintable, IsPrinted};
ghost use Rattle.proof_printer.specs.Naming.{naming_of};

use crate::heads::read_head;
use crate::namer::Namer;
use crate::pieces::split_line;
use crate::reading::Before;
use geo_base::Text;
use geo_lowering::{Lowered, Version};
use geo_points::NoMemory;
use geo_program::Program;
use geo_terms::Steps;
use log_checker::versions::lower_by;
use std::alloc::Global;

/// What the lines of a log are printed by: the names of its program, and the steps of its
/// construction.
#[derive(Drop)]
pub(crate) struct Printer {
    /// The names of points and parameters.
    pub namer: Namer,
    /// The steps.
    pub steps: Steps,
}

impl Printer {
    /// The printer of a program's logs of this version.
    pub fn new(alloc: Global, version: Version, program: &Program) -> Result<Printer, NoMemory>
        ensures names { IfOk result (λ printer.
            naming_in printer.namer ≡ naming_of version (source_of program.now)) }
        ensures steps { IfOk result (λ printer.
            IsConstructionOf version (source_of program.now) printer.steps) }
    {
        let lowered = lower_by(alloc, version, program)?;
        let namer = Namer::new(alloc, program, &lowered)?;
        let Lowered {
            steps,
            points: _,
            lines: _,
            params: _,
            after: _,
        } = lowered;
        Ok(Printer { namer, steps })
    }

    /// The readable proof of a log.
    pub fn print(&self, alloc: Global, bytes: &[u8]) -> Result<Text, NoMemory>
        requires { IsPrintable self.now.steps bytes.now }
        ensures { IfOk result
            (IsPrinted (naming_in self.now.namer) self.now.steps bytes.now) }
    {
        let mut out = Vec::new(alloc);
        let mut before = Before::zero(alloc);
        let mut rest = bytes;
        while let Some((piece, behind)) = split_line(rest) {
            let read = read_head(alloc, piece)?;
            before = self.push_line(alloc, &mut out, before, &read)?;
            rest = behind;
        }
        Ok(Text { bytes: out })
    }
}
