//! Why a program is not placed.

ghost use Rattle.std.specs.Prelude.{◌≡◌};
ghost use Rattle.geo_place.specs.declared.errors.PlaceError.TheVariants.{NoMemory as OutOfMemory};

use geo_points::NoMemory;
use std::alloc::{AllocError, AllocFailed};

/// Why a program is not placed at values.
#[derive(Clone, Copy, Debug, PartialEq, Eq)]
pub enum PlaceError {
    /// The condition of this number in the program's list, counted from 1, is not met.
    Unmet(u32),
    /// A number is too large.
    TooLarge {
        /// The line of the canonical program that needs it, counted from 1.
        line: u64,
    },
    /// There was not enough memory.
    NoMemory,
}

impl From<NoMemory> for PlaceError {
    ghost from_gives = { λ _ e. e ≡ OutOfMemory };

    fn from(_error: NoMemory) -> PlaceError {
        PlaceError::NoMemory
    }
}

impl From<AllocError> for PlaceError {
    ghost from_gives = { λ _ e. e ≡ OutOfMemory };

    fn from(_error: AllocError) -> PlaceError {
        PlaceError::NoMemory
    }
}

impl<T: Drop> From<AllocFailed<T>> for PlaceError {
    ghost from_gives = { λ _ e. e ≡ OutOfMemory };

    fn from(_error: AllocFailed<T>) -> PlaceError {
        PlaceError::NoMemory
    }
}
