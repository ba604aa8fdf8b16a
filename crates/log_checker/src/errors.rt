//! Why a log is not accepted, as callers see it.

use geo_points::NoMemory;
use geo_poly::Which;

/// Why a log is not accepted.
#[derive(Clone, Copy, Debug, PartialEq, Eq)]
pub enum CheckError {
    /// The line is rejected. The number of the reason: 21 no line of a log, or one without its line
    /// feed; 22 a line of a kind that may not stand there; 23 lines of no program, told of line 2;
    /// 24 the header of another chain than the next one; 25 another start; 26 a move that replaces
    /// nothing; 27 another polynomial than the move or the cut gives; 28 a cut by a variable that
    /// is not known, or with a rest; 29 the end of a chain where a quantity of points is left; 30 a
    /// sample with other variables, or at which a listed polynomial is zero; 31 another verdict
    /// than the evidence gives; 32 no line where one is due.
    Rejected {
        /// The number of the line, from 1.
        line: u64,
        /// The number of the reason.
        reason: u32,
    },
    /// The weight or the degree of the line passes its limit.
    TooLarge {
        /// The number of the line, from 1.
        line: u64,
        /// What passes its limit.
        which: Which,
    },
    /// The charges up to the line pass the steps that were given.
    Spent {
        /// The number of the line, from 1.
        line: u64,
    },
    /// Memory ran out.
    NoMemory,
}

impl From<NoMemory> for CheckError {
    ghost use Rattle.std.specs.Prelude.{◌≡◌};
    ghost use Rattle.log_checker.specs.declared.errors.CheckError.TheVariants as error;

    ghost from_gives = { λ _ e. e ≡ error.NoMemory };

    fn from(_error: NoMemory) -> CheckError {
        CheckError::NoMemory
    }
}
