//! Why placed points are not drawn.

ghost use Rattle.std.specs.Prelude.{◌≡◌};
ghost use Rattle.geo_figure.specs.declared.errors.DrawError.TheVariants.{NoMemory as OutOfMemory};

use geo_points::NoMemory;
use std::alloc::{AllocError, AllocFailed};

/// Why placed points are not drawn.
#[derive(Clone, Copy, Debug, PartialEq, Eq)]
pub enum DrawError {
    /// A number is too large.
    TooLarge {
        /// The line of the canonical program that has the point, counted from 1.
        line: u64,
    },
    /// There was not enough memory.
    NoMemory,
}

impl From<NoMemory> for DrawError {
    ghost from_gives = { λ _ e. e ≡ OutOfMemory };

    fn from(_error: NoMemory) -> DrawError {
        DrawError::NoMemory
    }
}

impl From<AllocError> for DrawError {
    ghost from_gives = { λ _ e. e ≡ OutOfMemory };

    fn from(_error: AllocError) -> DrawError {
        DrawError::NoMemory
    }
}

impl<T: Drop> From<AllocFailed<T>> for DrawError {
    ghost from_gives = { λ _ e. e ≡ OutOfMemory };

    fn from(_error: AllocFailed<T>) -> DrawError {
        DrawError::NoMemory
    }
}
