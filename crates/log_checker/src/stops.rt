//! Why a line does not go on a log.

ghost use Rattle.std.specs.Prelude.{◌≡◌};
ghost use Rattle.log_checker.specs.declared.stops.Stop.TheVariants.{NoMemory as OutOfMemory};
ghost use Rattle.log_checker.specs.Inner.Stops.{after_apply, after_sample, numbered};

use crate::errors::CheckError;
use crate::reasons::Reason;
use elim_apply::ApplyError;
use geo_points::NoMemory;
use geo_poly::Which;
use geo_sample::SampleError;

/// Why a line does not go on a log.
#[derive(Clone, Copy, Debug, PartialEq, Eq)]
pub(crate) enum Stop {
    /// It is rejected.
    Rejected(Reason),
    /// Its weight or its degree passes its limit.
    TooLarge(Which),
    /// The charges up to it pass the steps that were given.
    Spent,
    /// Memory ran out.
    NoMemory,
}

impl Stop {
    /// The error of the line of this number.
    pub fn at(self, line: u64) -> CheckError
        ensures { result ≡ numbered line self }
    {
        match self {
            Stop::Rejected(reason) => CheckError::Rejected {
                line,
                reason: reason.number(),
            },
            Stop::TooLarge(which) => CheckError::TooLarge { line, which },
            Stop::Spent => CheckError::Spent { line },
            Stop::NoMemory => CheckError::NoMemory,
        }
    }
}

impl From<NoMemory> for Stop {
    ghost from_gives = { λ _ e. e ≡ OutOfMemory };

    fn from(_error: NoMemory) -> Stop {
        Stop::NoMemory
    }
}

impl From<ApplyError> for Stop {
    ghost from_gives = { λ e s. s ≡ after_apply e };

    fn from(error: ApplyError) -> Stop {
        match error {
            ApplyError::NoRow => Stop::Rejected(Reason::NoRow),
            ApplyError::Spent => Stop::Spent,
            ApplyError::TooLarge(which) => Stop::TooLarge(which),
            ApplyError::NoMemory => Stop::NoMemory,
        }
    }
}

impl From<SampleError> for Stop {
    ghost from_gives = { λ e s. s ≡ after_sample e };

    fn from(error: SampleError) -> Stop {
        match error {
            SampleError::Spent => Stop::Spent,
            SampleError::TooLarge(which) => Stop::TooLarge(which),
            SampleError::NoMemory => Stop::NoMemory,
        }
    }
}
