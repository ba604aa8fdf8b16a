//! A line by its text.

ghost use Rattle.std.specs.Prelude.{IfOk};
ghost use Rattle.log_checker.specs.Judged.{IsRead};

use geo_points::NoMemory;
use proof_log::{Line, LineError, read_line};
use std::alloc::Global;

/// The line with this text; `None` where there is none.
pub(crate) fn line_of(alloc: Global, bytes: &[u8]) -> Result<Option<Line>, NoMemory>
    ensures { IfOk result (IsRead bytes.now) }
{
    match read_line(alloc, bytes) {
        Ok(line) => Ok(Some(line)),
        Err(LineError::BadLine) => Ok(None),
        Err(LineError::NoMemory) => Err(NoMemory),
    }
}
