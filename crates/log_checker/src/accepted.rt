//! What is answered of an accepted log.

use geo_program::Program;
use proof_log::Verdict;

/// What is answered of an accepted log.
#[derive(Drop)]
pub struct Accepted {
    /// Its program.
    pub program: Program,
    /// Its verdict.
    pub verdict: Verdict,
    /// The version in its header, 1 or 2.
    pub version: u32,
    /// The number of its lines.
    pub lines: u64,
    /// The sum of the charges of its lines.
    pub charge: u64,
}
