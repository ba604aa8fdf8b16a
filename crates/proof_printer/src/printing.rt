//! The text of a log as a proof.

ghost use Rattle.std.specs.Prelude.{◌≤◌, IfErr, IfOk, length};
ghost use Rattle.log_checker.specs.Checked.{TellsStop};
ghost use Rattle.log_checker.specs.Judged.{Refuses};
ghost use Rattle.proof_printer.specs.Proofs.{IsReadableProof};

use crate::printer::Printer;
use geo_base::Text;
use log_checker::versions::version_of;
use log_checker::{CheckError, check};
use std::alloc::Global;

/// The readable proof of a log, which is checked first. The refusals are those of `check`.
pub fn text(alloc: Global, bytes: &[u8], steps: u64) -> Result<Text, CheckError>
    requires { length bytes.now ≤ 67108864 }
    ensures readable { IfOk result (IsReadableProof bytes.now steps) }
    ensures refused { IfErr result (TellsStop (Refuses bytes.now steps)) }
{
    let accepted = check(alloc, bytes, steps)?;
    let version = version_of(accepted.version);
    let printer = Printer::new(alloc, version, &accepted.program)?;
    Ok(printer.print(alloc, bytes)?)
}
