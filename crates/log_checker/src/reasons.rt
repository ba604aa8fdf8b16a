//! Why a log is not accepted.

ghost use Rattle.std.specs.Prelude.{◌≡◌};
ghost use Rattle.geo_logs.specs.Judging.{number_of};
ghost use Rattle.log_checker.specs.Inner.Stops.{reason_of};

/// Why a line is rejected.
#[derive(Clone, Copy, Debug, PartialEq, Eq)]
pub(crate) enum Reason {
    /// It is no line of a log, or lacks its line feed.
    BadLine,
    /// A line of its kind may not stand there.
    WrongLine,
    /// The lines of the program are no canonical text.
    WrongProgram,
    /// It is the header of another chain than the next one.
    WrongChain,
    /// It has another start than its term.
    WrongStart,
    /// It names a move that replaces nothing.
    NoRow,
    /// It has another polynomial than the move or the cut gives.
    WrongPoly,
    /// It divides by a variable that is not known, or with a rest.
    WrongCut,
    /// It ends a chain where a quantity of points is left.
    NotEnded,
    /// It has other variables than the sample, or makes a listed polynomial zero.
    WrongSample,
    /// It is another verdict than the evidence gives.
    WrongVerdict,
    /// It is missing.
    Unfinished,
}

impl Reason {
    /// Its number.
    pub fn number(self) -> u32
        ensures { result ≡ number_of (reason_of self) }
    {
        match self {
            Reason::BadLine => 21,
            Reason::WrongLine => 22,
            Reason::WrongProgram => 23,
            Reason::WrongChain => 24,
            Reason::WrongStart => 25,
            Reason::NoRow => 26,
            Reason::WrongPoly => 27,
            Reason::WrongCut => 28,
            Reason::NotEnded => 29,
            Reason::WrongSample => 30,
            Reason::WrongVerdict => 31,
            Reason::Unfinished => 32,
        }
    }
}
