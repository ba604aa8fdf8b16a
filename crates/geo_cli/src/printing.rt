//! The command `text`: the readable proof of a log is written.
ghost use Rattle.std.specs.Prelude.{◌≡◌, ◌≢◌, ◌≤◌, length};
ghost use Rattle.geo_cli.specs.Due.{due_for};
ghost use Rattle.geo_cli.specs.Inner.Answering.{AnswersDue};
ghost use Rattle.geo_cli.specs.declared.order.Command.TheVariants.{Text};

use crate::answers::answer;
use crate::refusing::refuse;
use geo_base::Sink;
use proof_printer::{Status, text};
use std::alloc::Global;

/// Checks a log with so many steps, and writes it as a proof that a person reads, or the line at
/// which it is refused.
pub fn print_bytes<K: Sink>(alloc: Global, bytes: &[u8], steps: u64, sink: &mut K) -> Status
    requires { length bytes.now ≤ 67108864 }
    ensures answers { AnswersDue (due_for Text steps bytes.now) (K.faults sink.old)
        (K.faults sink.new) (K.held sink.old) (K.held sink.new) result }
    ensures reads { result ≢ Status.ReadFault }
    ensures faults { K.faults sink.old ≤ K.faults sink.new }
    ensures heard { result ≢ Status.WriteFault
        → K.faults sink.new ≡ K.faults sink.old }
{
    match text(alloc, bytes, steps) {
        Ok(proof) => answer(sink, &proof.bytes, Status::Done),
        Err(error) => refuse(alloc, error, sink),
    }
}
