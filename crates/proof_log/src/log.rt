//! The lines of a log.

use geo_base::Text;
use geo_points::PointId;
use geo_poly::lists::Values;
use geo_poly::{Factor, Poly, Var, Which};

/// What a log says of its program.
#[derive(Clone, Copy, Debug, PartialEq, Eq)]
pub enum Verdict {
    /// The statement holds in every placement that meets the program, and one meets it.
    Proved,
    /// The goal of this number fails in the placement that the sample fixes.
    False(u32),
    /// The condition of this number is never met.
    Impossible(u32),
}

/// A line of a log.
#[derive(Drop)]
pub enum Line {
    /// The first line, which names the format and its version, 1 or 2.
    Header {
        version: u32,
    },
    /// A line of the program, without its line feed.
    Program(Text),
    /// The condition's number, from 1, and its text: its chain begins.
    Condition {
        k: u32,
        text: Text,
    },
    /// The goal's number, from 1, and its text: its chain begins.
    Goal {
        k: u32,
        text: Text,
    },
    /// The numerator of the term of the condition or goal.
    Start(Poly),
    /// The ratio that was replaced by the elimination lemma of this number, the point that the
    /// lemma looks at (lemma 0 looks at none), and the polynomial after it.
    Ratio {
        var: Var,
        lemma: u32,
        at: Option<PointId>,
        poly: Poly,
    },
    /// The constructed point that was eliminated, and the polynomial after it.
    Point {
        at: PointId,
        poly: Poly,
    },
    /// The polynomial after the free points were put into coordinates.
    Coords(Poly),
    /// The polynomial before is the factor times this one.
    Cut {
        by: Factor,
        poly: Poly,
    },
    /// The end of a chain.
    End,
    /// A value for each coordinate of a free point and for each parameter.
    Sample(Values),
    /// What the log shows, on its last line.
    Verdict(Verdict),
    /// The prover stopped: the weight or the degree of the line of this number passes its limit.
    StopTooLarge {
        line: u64,
        which: Which,
    },
    /// The prover stopped: the charges up to the line of this number pass the steps that were
    /// given.
    StopSpent {
        line: u64,
    },
}
