//! Why a program has no whole log.

ghost use Rattle.std.specs.Prelude.{◌≡◌};
ghost use Rattle.geo_chain.specs.declared.errors.ProveError.TheVariants.{NoMemory as OutOfMemory};

use geo_points::NoMemory;
use geo_poly::Which;
use std::alloc::{AllocError, AllocFailed};

/// Why the log of a program does not end with a verdict, or is not written.
#[derive(Clone, Copy, Debug, PartialEq, Eq)]
pub enum ProveError {
    /// The weight or the degree of the line of this number passes its limit. The stop line stands
    /// there.
    TooLarge { line: u64, which: Which },
    /// The charges up to the line of this number pass the steps that were given. The stop line
    /// stands there.
    Spent { line: u64 },
    /// The next line would take the text past 67,108,864 bytes.
    TooLong,
    /// A write failed.
    WriteFault,
    /// Memory ran out.
    NoMemory,
}

impl From<NoMemory> for ProveError {
    ghost from_gives = { λ _ e. e ≡ OutOfMemory };

    fn from(_error: NoMemory) -> ProveError {
        ProveError::NoMemory
    }
}

impl From<AllocError> for ProveError {
    ghost from_gives = { λ _ e. e ≡ OutOfMemory };

    fn from(_error: AllocError) -> ProveError {
        ProveError::NoMemory
    }
}

impl<T: Drop> From<AllocFailed<T>> for ProveError {
    ghost from_gives = { λ _ e. e ≡ OutOfMemory };

    fn from(_error: AllocFailed<T>) -> ProveError {
        ProveError::NoMemory
    }
}
