//! The command `discover`: the relations of a figure are written.
ghost use Rattle.std.specs.Prelude.{◌≡◌, ◌≢◌, ◌≤◌, ℕ, List, length};
ghost use Rattle.geo_cli.specs.Due.{due_for};
ghost use Rattle.geo_cli.specs.Inner.Answering.{AnswersDue};
ghost use Rattle.geo_cli.specs.declared.order.Command.TheVariants.{Discover};
ghost use Rattle.geo_program.specs.Programs.{Spells, program_text};

use geo_base::Sink;
use geo_discover::{DiscoverError, discover};
use geo_program::Program;
use proof_printer::Status;
use std::alloc::Global;

/// Searches the figure of a program, and writes its relations, each candidate with so many steps.
pub fn discover_program<K: Sink>(
    alloc: Global,
    program: &Program,
    steps: u64,
    sink: &mut K,
) -> Status
    requires { length (program_text program.now) ≤ 67108864 }
    ensures answers { (bytes : List ℕ) → Spells bytes program.now
        → AnswersDue (due_for Discover steps bytes) (K.faults sink.old) (K.faults sink.new)
        (K.held sink.old) (K.held sink.new) result }
    ensures reads { result ≢ Status.ReadFault }
    ensures faults { K.faults sink.old ≤ K.faults sink.new }
    ensures heard { result ≢ Status.WriteFault
        → K.faults sink.new ≡ K.faults sink.old }
{
    match discover(alloc, program, steps, sink) {
        Ok(_) => Status::Done,
        Err(DiscoverError::Impossible(number)) => Status::Impossible(number),
        Err(DiscoverError::TooLarge { line, which }) => Status::TooLarge { line, which },
        Err(DiscoverError::Spent { line }) => Status::Spent { line },
        Err(DiscoverError::TooLong) => Status::TooLong,
        Err(DiscoverError::WriteFault) => Status::WriteFault,
        Err(DiscoverError::NoMemory) => Status::NoMemory,
    }
}
