//! The text that tells an accepted log: its program, its conditions, and its verdict.
ghost use Rattle.std.specs.Prelude.{◌≡◌, ◌++◌, IfOk, OnOk};
ghost use Rattle.proof_printer.specs.Due.{IsAcceptedText};
ghost use Rattle.proof_printer.specs.Inner.ConditionLines.{condition_line, condition_lines};
ghost use Rattle.geo_program.specs.Programs.{source_of};

use crate::verdict_texts::{push_numbered, push_verdict};
use geo_base::Text;
use geo_conditions::Item;
use geo_lowering::Version;
use geo_points::NoMemory;
use geo_program::{Program, print};
use log_checker::versions::problem_by;
use proof_log::Verdict;
use std::alloc::Global;

/// The canonical text of the program, a line for each of its conditions, and a line with the
/// verdict.
pub fn accepted_text(alloc: Global, program: &Program, verdict: Verdict) -> Result<Text, NoMemory>
    ensures { IfOk result (IsAcceptedText (source_of program.now) verdict) }
{
    let problem = problem_by(alloc, Version::Two, program)?;
    let Text { mut bytes } = print(alloc, program)?;
    push_conditions(alloc, &mut bytes, &problem.conditions.items)?;
    bytes.extend_from_slice(b"accepted ")?;
    push_verdict(alloc, &mut bytes, verdict)?;
    Ok(Text { bytes })
}

/// Appends a line for each of the conditions, numbered from 1.
fn push_conditions(alloc: Global, out: &mut Vec<u8>, items: &[Item]) -> Result<(), NoMemory>
    ensures { OnOk result (out.new.items ≡ out.old.items ++ condition_lines 1 items.now) }
{
    for (i, item) in items.iter().enumerate() {
        push_condition(alloc, out, i as u64 + 1, &item.text.bytes)?;
    }
    Ok(())
}

/// Appends the line of the condition of this number.
fn push_condition(
    alloc: Global,
    out: &mut Vec<u8>,
    number: u64,
    text: &[u8],
) -> Result<(), NoMemory>
    ensures { OnOk result (out.new.items ≡ out.old.items ++ condition_line number text.now) }
{
    push_numbered(alloc, out, b"condition ", number)?;
    out.push(b' ')?;
    out.extend_from_slice(text)?;
    out.push(b'\n')?;
    Ok(())
}
