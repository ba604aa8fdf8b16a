//! Why a search, or a log in the fixed frame, does not end with what is asked for.

use geo_chain::ProveError;
use geo_points::NoMemory;
use geo_poly::Which;
use std::alloc::{AllocError, AllocFailed};

/// Why a search does not tell of every candidate whether it is a relation.
#[derive(Clone, Copy, Debug, PartialEq, Eq)]
pub enum DiscoverError {
    /// No placement meets the commands: the number of the condition that is never met.
    Impossible(u32),
    /// The log of the first open candidate is stopped at this line of its own, for its charges.
    Spent { line: u64 },
    /// The log of the first open candidate is stopped at this line of its own, for its size.
    TooLarge { line: u64, which: Which },
    /// The log of the first open candidate is too long, or what is written is.
    TooLong,
    /// A write failed.
    WriteFault,
    /// Memory ran out.
    NoMemory,
}

impl From<NoMemory> for DiscoverError {
    ghost use Rattle.std.specs.Prelude.{◌≡◌};
    ghost use Rattle.geo_discover.specs.declared.errors.DiscoverError.TheVariants.{NoMemory as OutOfMemory};

    ghost from_gives = { λ _ e. e ≡ OutOfMemory };

    fn from(_error: NoMemory) -> DiscoverError {
        DiscoverError::NoMemory
    }
}

impl From<AllocError> for DiscoverError {
    ghost use Rattle.std.specs.Prelude.{◌≡◌};
    ghost use Rattle.geo_discover.specs.declared.errors.DiscoverError.TheVariants.{NoMemory as OutOfMemory};

    ghost from_gives = { λ _ e. e ≡ OutOfMemory };

    fn from(_error: AllocError) -> DiscoverError {
        DiscoverError::NoMemory
    }
}

impl<T: Drop> From<AllocFailed<T>> for DiscoverError {
    ghost use Rattle.std.specs.Prelude.{◌≡◌};
    ghost use Rattle.geo_discover.specs.declared.errors.DiscoverError.TheVariants.{NoMemory as OutOfMemory};

    ghost from_gives = { λ _ e. e ≡ OutOfMemory };

    fn from(_error: AllocFailed<T>) -> DiscoverError {
        DiscoverError::NoMemory
    }
}

/// Why the log in the fixed frame does not end with a verdict.
#[derive(Clone, Copy, Debug, PartialEq, Eq)]
pub enum FixedError {
    /// The charges up to the line of this number pass the steps that were given.
    Spent { line: u64 },
    /// The weight or the degree of the line of this number passes its limit.
    TooLarge { line: u64, which: Which },
    /// Memory ran out.
    NoMemory,
}

impl From<NoMemory> for FixedError {
    ghost use Rattle.std.specs.Prelude.{◌≡◌};
    ghost use Rattle.geo_discover.specs.declared.errors.FixedError.TheVariants.{NoMemory as OutOfMemory};

    ghost from_gives = { λ _ e. e ≡ OutOfMemory };

    fn from(_error: NoMemory) -> FixedError {
        FixedError::NoMemory
    }
}

/// The same stop. Lines that are counted are not too long, and no write of them fails.
impl From<ProveError> for FixedError {
    ghost use Rattle.std.specs.Prelude.{◌≡◌};
    ghost use Rattle.geo_discover.specs.Inner.Fixing.{fixed_by};

    ghost from_gives = { λ error e. e ≡ fixed_by error };

    fn from(error: ProveError) -> FixedError {
        match error {
            ProveError::Spent { line } => FixedError::Spent { line },
            ProveError::TooLarge { line, which } => FixedError::TooLarge { line, which },
            ProveError::TooLong => FixedError::NoMemory,
            ProveError::WriteFault => FixedError::NoMemory,
            ProveError::NoMemory => FixedError::NoMemory,
        }
    }
}
