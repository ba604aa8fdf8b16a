//! Sinks of bytes, and writing a whole text into one.
ghost use Rattle.std.specs.Prelude.{◌≡◌, ◌<◌, ◌≤◌, ℕ, List, Option, length, take, IfOk, OnOk};
ghost use Rattle.std.specs.Prelude.{OnErr, IsErrOf};
ghost use Rattle.geo_base.specs.Devices.{Grows, HasRisen};

use crate::reading::Failed;
use std::alloc::AllocError;

/// Why a sink took nothing.
#[derive(Clone, Copy, Debug, PartialEq, Eq)]
pub enum PutError {
    /// A write failed.
    Failed,
    /// Memory ran out.
    NoMemory,
}

impl From<AllocError> for PutError {
    ghost use Rattle.std.specs.Prelude.{◌≡◌};
    ghost use Rattle.geo_base.specs.declared.writing.PutError.TheVariants.{NoMemory};

    ghost from_gives = { λ _ e. e ≡ NoMemory };

    fn from(_error: AllocError) -> PutError {
        PutError::NoMemory
    }
}

/// A sink of bytes, written piece by piece.
pub trait Sink {
    // The bytes taken so far, or `None` where the sink does not tell them.
    ghost held: { Self → Option (List ℕ) };

    // How many writes have failed.
    ghost faults: { Self → ℕ };

    /// Takes bytes from the front of `buf` and answers how many, at least one of a nonempty `buf`.
    fn write(&mut self, buf: &[u8]) -> Result<usize, PutError>
        ensures within { IfOk result (λ n. n ≤ length buf.now) }
        ensures some { 0 < length buf.now → IfOk result (λ n. 0 < n) }
        ensures grown { IfOk result (λ n. Grows (held self.old) (take n buf.now) (held self.new)) }
        ensures kept { OnErr result (held self.new ≡ held self.old) }
        ensures fault { IsErrOf result PutError.Failed
            → HasRisen (faults self.old) (faults self.new) }
        ensures sound { OnOk result (faults self.new ≡ faults self.old) }
        ensures starved { IsErrOf result PutError.NoMemory
            → faults self.new ≡ faults self.old }
        ensures faults { faults self.old ≤ faults self.new };
}

/// Writes all of `bytes`. After an error the sink has taken the first of them, perhaps none.
pub fn write_all<K: Sink>(sink: &mut K, bytes: &[u8]) -> Result<(), PutError>
    ensures whole { OnOk result (Grows (K.held sink.old) bytes.now (K.held sink.new)) }
    ensures part { OnErr result ((n : ℕ)
        × Grows (K.held sink.old) (take n bytes.now) (K.held sink.new)) }
    ensures fault { IsErrOf result PutError.Failed
        → HasRisen (K.faults sink.old) (K.faults sink.new) }
    ensures heard { ¬ IsErrOf result PutError.Failed
        → K.faults sink.new ≡ K.faults sink.old }
    ensures faults { K.faults sink.old ≤ K.faults sink.new }
{
    let mut written = 0;
    while written < bytes.len() {
        written += sink.write(&bytes[written..])?;
    }
    Ok(())
}
