//! The texts that a run writes besides logs.
ghost use Rattle.std.specs.Prelude.{◌≡◌, ◌≢◌, ◌≤◌, ◌++◌, IfOk, OnOk};
ghost use Rattle.geo_cli.specs.Due.{count_line, rejected_line, syntax_line};
ghost use Rattle.geo_cli.specs.Run.{IsAnswered};

use geo_base::{PutError, Sink, Text, push_decimal, write_all};
use geo_lexer::Fault;
use geo_points::NoMemory;
use proof_printer::{Status, push_numbered};
use std::alloc::Global;

/// The line for words that are no command.
pub const USAGE: &[u8] = b"usage: geo_cli COMMAND [NUMBER] [--steps N]\n";

/// The line for an input that is longer than its limit.
pub const TOO_LONG: &[u8] = b"too long\n";

/// Writes the text, and gives the status that is answered then.
pub fn answer<K: Sink>(sink: &mut K, text: &[u8], status: Status) -> Status
    ensures answered { IsAnswered (record { text = text.now; status = status }) result
        (K.faults sink.old) (K.faults sink.new) (K.held sink.old) (K.held sink.new) }
    ensures faults { K.faults sink.old ≤ K.faults sink.new }
    ensures heard { result ≢ Status.WriteFault
        → K.faults sink.new ≡ K.faults sink.old }
{
    match write_all(sink, text) {
        Ok(()) => status,
        Err(PutError::Failed) => Status::WriteFault,
        Err(PutError::NoMemory) => Status::NoMemory,
    }
}

/// The line that tells a refusal and its place.
pub fn syntax_line(alloc: Global, fault: Fault) -> Result<Text, NoMemory>
    ensures { IfOk result (λ line. line ≡ syntax_line fault) }
{
    let mut bytes = Vec::from_slice(alloc, b"syntax ")?;
    push_decimal(alloc, &mut bytes, fault.refusal as i128).map_err(|_| NoMemory)?;
    bytes.extend_from_slice(b" at ")?;
    push_decimal(alloc, &mut bytes, fault.place as i128).map_err(|_| NoMemory)?;
    bytes.push(b'\n')?;
    Ok(Text { bytes })
}

/// The line that tells at which line a log is rejected, and the number of the reason.
pub fn rejected_line(alloc: Global, line: u64, reason: u32) -> Result<Text, NoMemory>
    ensures { IfOk result (λ text. text ≡ rejected_line line reason) }
{
    let mut bytes = Vec::from_slice(alloc, b"rejected ")?;
    push_decimal(alloc, &mut bytes, line as i128).map_err(|_| NoMemory)?;
    bytes.push(b' ')?;
    push_decimal(alloc, &mut bytes, reason as i128).map_err(|_| NoMemory)?;
    bytes.push(b'\n')?;
    Ok(Text { bytes })
}

/// Appends the line of a count.
pub fn push_count(alloc: Global, out: &mut Vec<u8>, name: &[u8], count: u64) -> Result<(), NoMemory>
    ensures { OnOk result (out.new.items ≡ out.old.items ++ count_line name.now count) }
{
    out.extend_from_slice(name)?;
    push_numbered(alloc, out, b" ", count)?;
    out.push(b'\n')?;
    Ok(())
}
