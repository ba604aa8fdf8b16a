//! What is told of a whole log.

use proof_log::Verdict;

/// What the log of a program came to.
#[derive(Clone, Copy, Debug, PartialEq, Eq)]
pub struct Summary {
    /// The verdict on its last line.
    pub verdict: Verdict,
    /// How many lines it has.
    pub lines: u64,
    /// The sum of the charges of its lines.
    pub charge: u64,
}
