//! The goals of a command: terms that are 0 just where the command is met.

ghost use Rattle.std.specs.Prelude.{◌≡◌, IfSome, length};
ghost use Rattle.geo_program.specs.Forms.{IsStored};
ghost use Rattle.geo_terms.specs.Stores.{Store};
ghost use Rattle.geo_library.specs.CitedGoals.{command_goals, has_lines};
ghost use Rattle.geo_library.specs.Inner.Goals.{IsGoalWithin, goal_trees};

use geo_points::{PointId, TermId};
use geo_program::Command;

/// A number of a goal.
#[derive(Clone, Copy, Debug, PartialEq, Eq)]
pub enum Number {
    /// The number 1.
    One,
    /// A term of the store.
    Stored(TermId),
}

/// A goal, over points and terms of a store.
#[derive(Clone, Copy, Debug, PartialEq, Eq)]
pub enum Goal {
    /// `S_ABX`: X lies on the line AB.
    OnLine {
        /// The point A.
        a: PointId,
        /// The point B.
        b: PointId,
        /// The point X.
        x: PointId,
    },
    /// `P_XAB - P_YAB`: XY is perpendicular to AB.
    Upright {
        /// The point X.
        x: PointId,
        /// The point Y.
        y: PointId,
        /// The point A.
        a: PointId,
        /// The point B.
        b: PointId,
    },
    /// `X - W = r (V - U)`, by the square of its length.
    Along {
        /// The point X.
        x: PointId,
        /// The point W.
        w: PointId,
        /// The point U.
        u: PointId,
        /// The point V.
        v: PointId,
        /// The number r.
        r: Number,
    },
    /// `X - U = r J (V - U)`, by the square of its length.
    Turned {
        /// The point X.
        x: PointId,
        /// The point U.
        u: PointId,
        /// The point V.
        v: PointId,
        /// The number r.
        r: TermId,
    },
    /// `2 P_AMA + 2 P_BMB - P_ABA`: M is the middle of A and B.
    Midpoint {
        /// The point M.
        m: PointId,
        /// The point A.
        a: PointId,
        /// The point B.
        b: PointId,
    },
    /// `S_PQX + S_PQA`: the middle of A and X lies on the line PQ.
    Halfway {
        /// The point X.
        x: PointId,
        /// The point A.
        a: PointId,
        /// The point P.
        p: PointId,
        /// The point Q.
        q: PointId,
    },
    /// `P_XAX - P_XBX`: A and B are at the same distance from X.
    Bisector {
        /// The point X.
        x: PointId,
        /// The point A.
        a: PointId,
        /// The point B.
        b: PointId,
    },
    /// `P_XOX - P_AOA`: X and A are at the same distance from O.
    Circle {
        /// The point X.
        x: PointId,
        /// The point O.
        o: PointId,
        /// The point A.
        a: PointId,
    },
    /// `A + B + C = 3 X`, by the square of its length.
    Centroid {
        /// The point X.
        x: PointId,
        /// The point A.
        a: PointId,
        /// The point B.
        b: PointId,
        /// The point C.
        c: PointId,
    },
    /// `P_XOP - P_AOA`: the product of OX and OP is the square of OA.
    Inverse {
        /// The point X.
        x: PointId,
        /// The point P.
        p: PointId,
        /// The point O.
        o: PointId,
        /// The point A.
        a: PointId,
    },
    /// `X - A = r (B - A) + s (C - A)`, by the square of its length.
    Weights {
        /// The point X.
        x: PointId,
        /// The point A.
        a: PointId,
        /// The point B.
        b: PointId,
        /// The point C.
        c: PointId,
        /// The number r.
        r: TermId,
        /// The number s.
        s: TermId,
    },
}

/// The goals of a command that makes the point X; it has two at most.
pub fn command_goals(x: PointId, command: Command) -> (Option<Goal>, Option<Goal>)
    ensures goals { (nodes : Store) → command_goals nodes x command ≡ goal_trees nodes result }
    ensures first { (nodes : Store) → IsStored nodes command
        → IfSome result.0 (IsGoalWithin (length nodes)) }
    ensures second { (nodes : Store) → IsStored nodes command
        → IfSome result.1 (IsGoalWithin (length nodes)) }
{
    match command {
        Command::Inter { a, b, c, d } => {
            two(Goal::OnLine { a, b, x }, Goal::OnLine { a: c, b: d, x })
        }
        Command::Foot { p, a, b } => two(Goal::OnLine { a, b, x }, Goal::Upright { x, y: p, a, b }),
        Command::Pratio { w, u, v, r } => along(x, w, u, v, Number::Stored(r)),
        Command::Tratio { u, v, r } => one(Goal::Turned { x, u, v, r }),
        Command::Online { a, b } => one(Goal::OnLine { a, b, x }),
        Command::Lratio { a, b, r } => along(x, a, a, b, Number::Stored(r)),
        Command::Midpoint { a, b } => one(Goal::Midpoint { m: x, a, b }),
        Command::Translate { a, b, c } => along(x, c, a, b, Number::One),
        Command::Symmetric { a, o } => one(Goal::Midpoint { m: o, a, b: x }),
        Command::Reflect { a, p, q } => two(
            Goal::Halfway { x, a, p, q },
            Goal::Upright {
                x,
                y: a,
                a: p,
                b: q,
            },
        ),
        Command::Circumcenter { a, b, c } => {
            two(Goal::Bisector { x, a, b }, Goal::Bisector { x, a, b: c })
        }
        Command::Orthocenter { a, b, c } => two(
            Goal::Upright { x, y: a, a: c, b },
            Goal::Upright {
                x,
                y: b,
                a: c,
                b: a,
            },
        ),
        Command::Centroid { a, b, c } => one(Goal::Centroid { x, a, b, c }),
        Command::Oncircle { o, a } => one(Goal::Circle { x, o, a }),
        Command::Second { a, b, o } => two(Goal::OnLine { a, b, x }, Goal::Circle { x, o, a }),
        Command::Cc { o, p, a } => two(Goal::Circle { x, o, a }, Goal::Circle { x, o: p, a }),
        Command::Inverse { p, o, a } => {
            two(Goal::OnLine { a: o, b: p, x }, Goal::Inverse { x, p, o, a })
        }
        Command::Weights { a, b, c, r, s } => one(Goal::Weights { x, a, b, c, r, s }),
        _ => (None, None),
    }
}

// One goal.
fn one(goal: Goal) -> (Option<Goal>, Option<Goal>)
    ensures { result ≡ (Some goal, None) }
{
    (Some(goal), None)
}

// Two goals.
fn two(first: Goal, second: Goal) -> (Option<Goal>, Option<Goal>)
    ensures { result ≡ (Some first, Some second) }
{
    (Some(first), Some(second))
}

// X lies r times the vector UV from W.
fn along(x: PointId, w: PointId, u: PointId, v: PointId, r: Number) -> (Option<Goal>, Option<Goal>)
    ensures { result ≡ (Some (Goal.Along x w u v r), None) }
{
    one(Goal::Along { x, w, u, v, r })
}

/// Whether the command names a line or takes one; such a command is not cited.
pub fn has_lines(command: Command) -> bool
    ensures { result ≡ has_lines command }
{
    matches!(
        command,
        Command::Line { .. }
            | Command::Parallel { .. }
            | Command::Perp { .. }
            | Command::Med { .. }
            | Command::Intersec { .. }
    )
}
