//! The sample and the verdict.

ghost use Rattle.std.specs.Prelude.{◌≡◌, IfErr, IfOk, OnOk};
ghost use Rattle.geo_logs.specs.Places.{before_sample};
ghost use Rattle.geo_poly.specs.Specialise.{NoneZero};
ghost use Rattle.geo_chain.specs.Halting.{Finishes, Halts};
ghost use Rattle.geo_chain.specs.InFrame.{chosen_in};
ghost use Rattle.geo_chain.specs.Parts.{CanWrite, end_part, here_part};
ghost use Rattle.geo_chain.specs.Written.{state};

use crate::errors::ProveError;
use crate::frame::Frame;
use crate::log_writer::LogWriter;
use crate::sample_variables::variables_of_sample;
use geo_base::{Budget, Sink};
use geo_poly::lists::{Polys, Values};
use geo_sample::{SampleError, least_sample_uncounted};
use geo_terms::Steps;
use proof_log::{Line, Verdict};
use std::alloc::Global;

/// Writes the least sample at which none of the polynomials is 0, and then the verdict.
pub fn conclude<K: Sink>(
    alloc: Global,
    frame: Frame,
    steps: &Steps,
    ends: &Polys,
    verdict: Verdict,
    budget: &mut Budget,
    log: &mut LogWriter,
    sink: &mut K,
) -> Result<(), ProveError>
    requires nonzero { NoneZero ends.now }
    requires writable { CanWrite frame steps.now
        (end_part frame steps.now ends.now verdict budget.old.left) log.old.size }
    ensures ok { OnOk result (Finishes (end_part frame steps.now ends.now verdict budget.old.left)
        (state log.old (K.held sink.old) (K.faults sink.old))
        (state log.new (K.held sink.new) (K.faults sink.new)) verdict budget.new.left) }
    ensures err { IfErr result (Halts frame steps.now
        (end_part frame steps.now ends.now verdict budget.old.left)
        (state log.old (K.held sink.old) (K.faults sink.old))
        (state log.new (K.held sink.new) (K.faults sink.new))) }
{
    let values = find_sample(alloc, frame, steps, ends, budget, log, sink)?;
    log.write(alloc, sink, &Line::Sample(values))?;
    log.write(alloc, sink, &Line::Verdict(verdict))
}

/// The least sample; the line of a stop is written.
fn find_sample<K: Sink>(
    alloc: Global,
    frame: Frame,
    steps: &Steps,
    ends: &Polys,
    budget: &mut Budget,
    log: &LogWriter,
    sink: &mut K,
) -> Result<Values, ProveError>
    requires { NoneZero ends.now }
    ensures least { IfOk result (λ values.
        chosen_in frame steps.now ends.now budget.old.left values budget.new.left) }
    ensures kept { OnOk result (sink.new ≡ sink.old) }
    ensures err { IfErr result (Halts frame steps.now
        (here_part (before_sample ends.now budget.old.left))
        (state log.now (K.held sink.old) (K.faults sink.old))
        (state log.now (K.held sink.new) (K.faults sink.new))) }
{
    let vars = variables_of_sample(alloc, frame, steps)?;
    match least_sample_uncounted(alloc, ends, &vars, budget) {
        Ok(values) => Ok(values),
        Err(SampleError::Spent) => Err(log.stop_spent(alloc, sink)),
        Err(SampleError::TooLarge(which)) => Err(log.stop_too_large(alloc, sink, which)),
        Err(SampleError::NoMemory) => Err(ProveError::NoMemory),
    }
}
