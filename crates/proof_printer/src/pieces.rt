//! The lines of bytes.

ghost use Rattle.std.specs.Prelude.{◌≡◌, ◌∷◌, ◌++◌, IfSome, IsNone, IfOk};
ghost use Rattle.proof_log.specs.declared.log.Line.{Line};
ghost use Rattle.proof_log.specs.Lines.{line_text};
ghost use Rattle.proof_log.specs.Writable.{HasNoLineFeed, IsWritable};

use geo_points::NoMemory;
use proof_log::{Line, LineError, read_line};
use std::alloc::Global;

/// The bytes before the first line feed, and those behind it.
pub(crate) fn split_line(bytes: &[u8]) -> Option<(&[u8], &[u8])>
    ensures split { IfSome result (λ r. bytes.now ≡ r.0.now ++ 10 ∷ r.1.now) }
    ensures one_line { IfSome result (λ r. HasNoLineFeed r.0.now) }
    ensures none { IsNone result → HasNoLineFeed bytes.now }
{
    for (at, byte) in bytes.iter().enumerate() {
        if *byte == b'\n' {
            return Some((&bytes[..at], &bytes[at + 1..]));
        }
    }
    None
}

/// The line that was written so.
pub(crate) fn read_written(alloc: Global, bytes: &[u8]) -> Result<Line, NoMemory>
    requires { (line : Line) × IsWritable line × (bytes.now ≡ line_text line) }
    ensures { (line : Line) → IsWritable line → bytes.now ≡ line_text line
        → IfOk result (λ l. l ≡ line) }
{
    match read_line(alloc, bytes) {
        Ok(line) => Ok(line),
        Err(LineError::NoMemory) => Err(NoMemory),
        Err(LineError::BadLine) => unreachable!(),
    }
}
