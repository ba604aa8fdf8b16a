//! How a call ended.
ghost use Rattle.std.specs.Prelude.{◌≡◌};
ghost use Rattle.proof_printer.specs.Status.{error_status, limit_number, status_at, status_number};
ghost use Rattle.proof_printer.specs.Status.{status_reason, verdict_status};

use geo_lexer::Fault;
use geo_poly::Which;
use log_checker::CheckError;
use proof_log::Verdict;

/// How a run of the program ended, or a call of the library, which has not all of these ends.
#[derive(Clone, Copy, Debug, PartialEq, Eq)]
pub enum Status {
    /// The statement is true.
    Proved,
    /// The statement fails at the printed integers: the number of the goal that is not 0 there.
    False(u32),
    /// No placement meets the program: the number of the condition that is never met.
    Impossible(u32),
    /// The words are no command.
    Usage,
    /// The input spells no program.
    Syntax {
        /// The number of the refusal.
        refusal: u32,
        /// The place of the token that is refused, in bytes from 0.
        place: u64,
    },
    /// A line of the log passes a limit.
    TooLarge {
        /// The number of the line, from 1.
        line: u64,
        /// Which limit: that of norms, or that of degrees.
        which: Which,
    },
    /// The charges pass the steps.
    Spent {
        /// The number of the line, from 1.
        line: u64,
    },
    /// A read failed.
    ReadFault,
    /// A write failed.
    WriteFault,
    /// Memory ran out.
    NoMemory,
    /// A line of the log is not accepted.
    Rejected {
        /// The number of the line, from 1.
        line: u64,
        /// The number of the reason.
        reason: u32,
    },
    /// The input, or the log, is longer than its limit.
    TooLong,
    /// A readable proof, placed points or a drawing is written, or a statement is cited.
    Done,
    /// No placement with the values meets the program: the number of the condition that is not met.
    Unmet(u32),
    /// The citing program is no instance of the cited one.
    NotInstance {
        /// The line of the cited program that asks what is not so, from 1.
        line: u64,
    },
}

impl Status {
    /// The number that the process ends with, and that a call answers.
    pub fn number(&self) -> u8
        ensures { result ≡ status_number self.now }
    {
        match self {
            Status::Proved => 0,
            Status::False(_) => 1,
            Status::Impossible(_) => 2,
            Status::Usage => 3,
            Status::Syntax { .. } => 4,
            Status::TooLarge { .. } => 6,
            Status::Spent { .. } => 7,
            Status::ReadFault => 8,
            Status::WriteFault => 9,
            Status::NoMemory => 10,
            Status::Rejected { .. } => 11,
            Status::TooLong => 12,
            Status::Done => 13,
            Status::Unmet(_) => 15,
            Status::NotInstance { .. } => 16,
        }
    }

    /// Where: the number of a goal, a condition or a line, or the place of a token; 0 where there is
    /// none of them.
    pub fn at(&self) -> u64
        ensures { result ≡ status_at self.now }
    {
        match self {
            Status::False(number) | Status::Impossible(number) | Status::Unmet(number) => {
                *number as u64
            }
            Status::Syntax { place, .. } => *place,
            Status::TooLarge { line, .. }
            | Status::Spent { line }
            | Status::Rejected { line, .. }
            | Status::NotInstance { line } => *line,
            Status::Proved
            | Status::Usage
            | Status::ReadFault
            | Status::WriteFault
            | Status::NoMemory
            | Status::TooLong
            | Status::Done => 0,
        }
    }

    /// Why: the number of a refusal, of a limit or of a reason; 0 where there is none of them.
    pub fn reason(&self) -> u64
        ensures { result ≡ status_reason self.now }
    {
        match self {
            Status::Syntax { refusal, .. } => *refusal as u64,
            Status::TooLarge { which, .. } => limit_number(*which),
            Status::Rejected { reason, .. } => *reason as u64,
            _ => 0,
        }
    }

    /// The status that tells a verdict.
    pub fn of_verdict(verdict: Verdict) -> Status
        ensures { result ≡ verdict_status verdict }
    {
        match verdict {
            Verdict::Proved => Status::Proved,
            Verdict::False(goal) => Status::False(goal),
            Verdict::Impossible(condition) => Status::Impossible(condition),
        }
    }

    /// The status that tells why a text spells no program.
    pub fn of_fault(fault: Fault) -> Status
        ensures { result ≡ Status.Syntax fault.refusal fault.place }
    {
        Status::Syntax {
            refusal: fault.refusal,
            place: fault.place,
        }
    }

    /// The status that tells why a log is refused.
    pub fn of_error(error: CheckError) -> Status
        ensures { result ≡ error_status error }
    {
        match error {
            CheckError::Rejected { line, reason } => Status::Rejected { line, reason },
            CheckError::TooLarge { line, which } => Status::TooLarge { line, which },
            CheckError::Spent { line } => Status::Spent { line },
            CheckError::NoMemory => Status::NoMemory,
        }
    }
}

/// The number of a limit.
fn limit_number(which: Which) -> u64
    ensures { result ≡ limit_number which }
{
    match which {
        Which::Norm => 1,
        Which::Degree => 2,
    }
}
