//! A run of the program, over any source and sink.
ghost use Rattle.std.specs.Prelude.{◌≡◌, ◌≢◌, ◌≤◌, ◌⊎◌, ℕ};
ghost use Rattle.geo_base.specs.Devices.{Grows, HasRisen};
ghost use Rattle.proof_printer.specs.Due.{Due};
ghost use Rattle.proof_printer.specs.Status.{verdict_status};
ghost use Rattle.geo_cli.specs.Due.{HasInput, IsCalledFor};
ghost use Rattle.geo_cli.specs.Inner.Answering.{AnswersCommand, HasNumber};
ghost use Rattle.geo_cli.specs.Enough.{AsksForFirstForm, IsDecisive};
ghost use Rattle.geo_cli.specs.Input.{Takes, limit_of};
ghost use Rattle.geo_cli.specs.Orders.{IsOrder};
ghost use Rattle.geo_cli.specs.declared.order.Command.TheVariants.{Bench};
ghost use Rattle.geo_cli.specs.declared.order.Order.{Order};
ghost use Rattle.geo_cli.specs.Run.{CitesNone, DoneTells, Ends, IsBrokenOff, IsStopStatus};
ghost use Rattle.geo_cli.specs.Run.{PlacesNone, SearchesBegun, SearchesInPart};
ghost use Rattle.geo_cli.specs.Run.{VerdictAccepted, VerdictTells};
ghost use Rattle.geo_cli.specs.Words.{IsDiscover, ReadsNothing, bytes_of_words};
ghost use Rattle.proof_log.specs.declared.log.Verdict.{Verdict};

use crate::answers::{USAGE, answer};
use crate::benching::run_bench;
use crate::checking::run_check;
use crate::order::{Command, Order, order_of};
use crate::reading::run_reading;
use geo_base::{Sink, Source};
use proof_printer::Status;
use std::alloc::Global;

/// Carries out the command that the words are. For `prove` it reads a program from the source to
/// its end, and writes its log to the sink, each line when it is made. For `check` and `text` it
/// reads a log to its end, and then writes what it tells, or the log as a proof that a person
/// reads. For `place` and `figure` it reads values and a program to their end, and then writes
/// the program's points at these values, or draws them. For `cite` it reads a log, names and a
/// program to the end, and then writes the statement that they cite. For `fixed` it reads a program
/// to its end, and then writes the verdict with the first point at the origin. For `discover` it
/// reads a program to its end, and writes the relations of its figure, each when it is found. For
/// `bench` it reads nothing. It writes nothing before the words and the reading are done.
pub fn run<S: Source, K: Sink>(
    alloc: Global,
    words: &Vec<String>,
    source: &mut S,
    sink: &mut K,
) -> Status
    ensures decides { (verdict : Verdict) → result ≡ verdict_status verdict
        → VerdictTells (bytes_of_words words.now.items) (S.left source.old) (S.left source.new)
        (K.held sink.old) (K.held sink.new) verdict }
    ensures accepted { (verdict : Verdict) → result ≡ verdict_status verdict
        → VerdictAccepted (bytes_of_words words.now.items) (S.left source.old)
        (S.left source.new) (K.held sink.old) (K.held sink.new) verdict }
    ensures done { result ≡ Status.Done
        → DoneTells (bytes_of_words words.now.items) (S.left source.old) (S.left source.new)
        (K.held sink.old) (K.held sink.new) }
    ensures unmet { (number : ℕ) → result ≡ Status.Unmet number
        → PlacesNone (bytes_of_words words.now.items) (S.left source.old) (S.left source.new)
        number }
    ensures no_instance { (line : ℕ) → result ≡ Status.NotInstance line
        → CitesNone (bytes_of_words words.now.items) (S.left source.old) (S.left source.new) line }
    ensures in_part { (steps : ℕ) → IsDiscover (bytes_of_words words.now.items) steps
        → IsStopStatus result
        → SearchesInPart steps (S.left source.old) (S.left source.new)
        (K.held sink.old) (K.held sink.new) result }
    ensures begun { (steps : ℕ) → IsDiscover (bytes_of_words words.now.items) steps
        → IsBrokenOff result
        → SearchesBegun steps (S.left source.old) (S.left source.new)
        (K.held sink.old) (K.held sink.new) }
    ensures ends { Ends (bytes_of_words words.now.items) (S.left source.old) (S.left source.new)
        (S.faults source.old) (S.faults source.new) (K.faults sink.old) (K.faults sink.new)
        (K.held sink.old) (K.held sink.new) result }
    ensures complete { (due : Due)
        → IsCalledFor (bytes_of_words words.now.items) (S.left source.old) due
        → ¬ (HasRisen (S.faults source.old) (S.faults source.new))
        → ¬ (HasRisen (K.faults sink.old) (K.faults sink.new))
        → (result ≡ Status.NoMemory)
        ⊎ ((result ≡ due.status) × Grows (K.held sink.old) due.text (K.held sink.new)) }
    ensures enough { AsksForFirstForm (bytes_of_words words.now.items) (S.left source.old)
        → ¬ (HasRisen (S.faults source.old) (S.faults source.new))
        → ¬ (HasRisen (K.faults sink.old) (K.faults sink.new))
        → IsDecisive result }
    ensures unwritten { result ≡ Status.ReadFault → sink.new ≡ sink.old }
    ensures one { (due other : Due)
        → IsCalledFor (bytes_of_words words.now.items) (S.left source.old) due
        → IsCalledFor (bytes_of_words words.now.items) (S.left source.old) other
        → due ≡ other }
    ensures some { (order : Order) → IsOrder (bytes_of_words words.now.items) order
        → HasInput order.command (S.left source.old)
        → (due : Due) × IsCalledFor (bytes_of_words words.now.items) (S.left source.old) due }
    ensures taken { (order : Order) → IsOrder (bytes_of_words words.now.items) order
        → Takes (limit_of order.command) (S.left source.old) (S.left source.new) }
    ensures unread { ReadsNothing (bytes_of_words words.now.items) → source.new ≡ source.old }
    ensures source_faults { S.faults source.old ≤ S.faults source.new }
    ensures sink_faults { K.faults sink.old ≤ K.faults sink.new }
    ensures source_heard { result ≢ Status.ReadFault
        → S.faults source.new ≡ S.faults source.old }
    ensures sink_heard { result ≢ Status.WriteFault
        → K.faults sink.new ≡ K.faults sink.old }
{
    match order_of(words) {
        Some(order) => carry_out(alloc, order, source, sink),
        None => answer(sink, USAGE, Status::Usage),
    }
}

/// Carries out an order.
fn carry_out<S: Source, K: Sink>(
    alloc: Global,
    order: Order,
    source: &mut S,
    sink: &mut K,
) -> Status
    requires { HasNumber order.command }
    ensures answers { AnswersCommand order.command order.steps
        (S.left source.old) (S.left source.new) (S.faults source.old) (S.faults source.new)
        (K.faults sink.old) (K.faults sink.new) (K.held sink.old) (K.held sink.new) result }
    ensures unwritten { result ≡ Status.ReadFault → sink.new ≡ sink.old }
    ensures taken { Takes (limit_of order.command) (S.left source.old) (S.left source.new) }
    ensures unread { (number : ℕ) → order.command ≡ Bench number → source.new ≡ source.old }
    ensures source_faults { S.faults source.old ≤ S.faults source.new }
    ensures sink_faults { K.faults sink.old ≤ K.faults sink.new }
    ensures source_heard { result ≢ Status.ReadFault
        → S.faults source.new ≡ S.faults source.old }
    ensures sink_heard { result ≢ Status.WriteFault
        → K.faults sink.new ≡ K.faults sink.old }
{
    match order.command {
        Command::Check => run_check(alloc, order.steps, source, sink),
        Command::Bench(number) => run_bench(alloc, number, order.steps, sink),
        _ => run_reading(alloc, order.command, order.steps, source, sink),
    }
}
