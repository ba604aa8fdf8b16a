//! Texts that are to be written, with the statuses that are answered then.
ghost use Rattle.std.specs.Prelude.{◌≡◌, IfOk};
ghost use Rattle.geo_cli.specs.Due.{fault_due};
ghost use Rattle.geo_cli.specs.Inner.Telling.{due_of, stop_report};
ghost use Rattle.proof_log.specs.Writable.{IsWritable};

use crate::answers::syntax_line;
use geo_base::Text;
use geo_lexer::Fault;
use geo_points::NoMemory;
use proof_log::{Line, write_line};
use proof_printer::Status;
use std::alloc::Global;

/// A text that is to be written, and the status then.
#[derive(Drop)]
pub struct Report {
    /// The text.
    pub text: Text,
    /// The status.
    pub status: Status,
}

/// What is to be written for a refusal at this place.
pub fn report_fault(alloc: Global, refusal: u32, place: u64) -> Result<Report, NoMemory>
    ensures { IfOk result (λ r. due_of r ≡ fault_due refusal place) }
{
    Ok(Report {
        text: syntax_line(alloc, Fault { refusal, place })?,
        status: Status::Syntax { refusal, place },
    })
}

/// What is to be written for a stop, which has this line and this status.
pub fn report_stop(alloc: Global, stop: &Line, status: Status) -> Result<Report, NoMemory>
    requires { IsWritable stop.now }
    ensures { IfOk result (λ report. report ≡ stop_report stop.now status) }
{
    let text = write_line(alloc, stop)?;
    Ok(Report { text, status })
}
