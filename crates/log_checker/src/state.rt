//! What the lines that were taken leave.

use crate::errors::CheckError;
use crate::work::Work;
use geo_lowering::Version;

/// What the lines that were taken leave.
#[derive(Drop)]
pub(crate) enum State {
    /// No line came yet.
    Empty,
    /// The header with this version came, and then lines of the program, which are kept with their
    /// line feeds.
    Program { version: Version, text: Vec<u8> },
    /// Lines behind the program came.
    Work(Work),
    /// A line was refused, or memory ran out.
    Failed(CheckError),
}

impl State {
    ghost use Rattle.std.specs.Prelude.{◌≡◌};
    ghost use Rattle.log_checker.specs.Checkers.{failure_of};

    /// The error, where it has failed.
    pub fn failure(&self) -> Option<CheckError>
        ensures { result ≡ failure_of self.now }
    {
        match self {
            State::Failed(error) => Some(*error),
            State::Empty | State::Program { .. } | State::Work(_) => None,
        }
    }
}
