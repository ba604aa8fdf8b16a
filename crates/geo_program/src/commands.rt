//! The commands of a program.

ghost use Rattle.std.specs.Prelude.{◌≡◌, length, option_map};
ghost use Rattle.geo_program.specs.Forms.{command_form};
ghost use Rattle.geo_program.specs.WellFormed.{kinds_made};
ghost use Rattle.geo_terms.specs.Stores.{Store};

use crate::names::NameKind;
use geo_points::{PointId, TermId};
use std::marker::Model;

/// The number of a line, counted from 0 in the order of declaration.
#[derive(Clone, Copy, Debug, PartialEq, Eq, PartialOrd, Ord, Hash)]
pub struct LineId(pub u32);

/// A command. What it makes has the next name of the program, which is no field; an assumption
/// makes nothing. A [`PointId`] counts the program's points alone, and not those that a
/// construction adds.
#[derive(Clone, Copy, Debug, PartialEq, Eq)]
pub enum Command {
    /// A free point.
    Point,
    /// A parameter.
    Param,
    /// The line through two points that differ.
    Line {
        /// The first point.
        a: PointId,
        /// The second point.
        b: PointId,
    },
    /// The line through a point in the direction of another line.
    Parallel {
        /// The point.
        p: PointId,
        /// The line that gives the direction.
        b: LineId,
    },
    /// The line through a point, perpendicular to another line.
    Perp {
        /// The point.
        p: PointId,
        /// The line that it is perpendicular to.
        b: LineId,
    },
    /// The points at equal distance from two points that differ.
    Med {
        /// The first point.
        a: PointId,
        /// The second point.
        b: PointId,
    },
    /// The point on two lines that cross.
    Intersec {
        /// The first line.
        a: LineId,
        /// The second line.
        b: LineId,
    },
    /// The point on the lines AB and CD, which are not parallel.
    Inter {
        /// The point A.
        a: PointId,
        /// The point B.
        b: PointId,
        /// The point C.
        c: PointId,
        /// The point D.
        d: PointId,
    },
    /// The foot of the perpendicular from P to the line AB.
    Foot {
        /// The point P.
        p: PointId,
        /// The point A.
        a: PointId,
        /// The point B.
        b: PointId,
    },
    /// The point X with `X - W = r (V - U)`.
    Pratio {
        /// The point W.
        w: PointId,
        /// The point U.
        u: PointId,
        /// The point V.
        v: PointId,
        /// The number r.
        r: TermId,
    },
    /// The point X with `X - U = r J (V - U)`, where J turns a quarter counter-clockwise.
    Tratio {
        /// The point U.
        u: PointId,
        /// The point V.
        v: PointId,
        /// The number r.
        r: TermId,
    },
    /// Some point of the line AB.
    Online {
        /// The point A.
        a: PointId,
        /// The point B.
        b: PointId,
    },
    /// The point X with `X - A = r (B - A)`.
    Lratio {
        /// The point A.
        a: PointId,
        /// The point B.
        b: PointId,
        /// The number r.
        r: TermId,
    },
    /// The middle of A and B.
    Midpoint {
        /// The point A.
        a: PointId,
        /// The point B.
        b: PointId,
    },
    /// The point X with `X - C = B - A`.
    Translate {
        /// The point A.
        a: PointId,
        /// The point B.
        b: PointId,
        /// The point C.
        c: PointId,
    },
    /// The point X with `X - O = O - A`.
    Symmetric {
        /// The point A.
        a: PointId,
        /// The centre O.
        o: PointId,
    },
    /// The reflection of A in the line PQ.
    Reflect {
        /// The point A.
        a: PointId,
        /// The point P.
        p: PointId,
        /// The point Q.
        q: PointId,
    },
    /// The centre of the circle through A, B and C.
    Circumcenter {
        /// The point A.
        a: PointId,
        /// The point B.
        b: PointId,
        /// The point C.
        c: PointId,
    },
    /// The point of the altitudes of the triangle ABC.
    Orthocenter {
        /// The point A.
        a: PointId,
        /// The point B.
        b: PointId,
        /// The point C.
        c: PointId,
    },
    /// The point X with `3 X = A + B + C`.
    Centroid {
        /// The point A.
        a: PointId,
        /// The point B.
        b: PointId,
        /// The point C.
        c: PointId,
    },
    /// Some point of the circle with the centre O through A.
    Oncircle {
        /// The centre O.
        o: PointId,
        /// The point A.
        a: PointId,
    },
    /// The second point of the line AB on the circle with the centre O through A.
    Second {
        /// The point A.
        a: PointId,
        /// The point B.
        b: PointId,
        /// The centre O.
        o: PointId,
    },
    /// The second point of the circles through A with the centres O and P.
    Cc {
        /// The centre O.
        o: PointId,
        /// The centre P.
        p: PointId,
        /// The point A.
        a: PointId,
    },
    /// The inverse of P in the circle with the centre O through A.
    Inverse {
        /// The point P.
        p: PointId,
        /// The centre O.
        o: PointId,
        /// The point A.
        a: PointId,
    },
    /// The point X with `X - A = r (B - A) + s (C - A)`.
    Weights {
        /// The point A.
        a: PointId,
        /// The point B.
        b: PointId,
        /// The point C.
        c: PointId,
        /// The number r.
        r: TermId,
        /// The number s.
        s: TermId,
    },
    /// The assumption that A and B differ. It makes nothing.
    AssumeDifferent {
        /// The point A.
        a: PointId,
        /// The point B.
        b: PointId,
    },
    /// The assumption that A, B and C are not on one line. It makes nothing.
    AssumeNotCollinear {
        /// The point A.
        a: PointId,
        /// The point B.
        b: PointId,
        /// The point C.
        c: PointId,
    },
    /// The assumption that AB and CD are not parallel. It makes nothing.
    AssumeNotParallel {
        /// The point A.
        a: PointId,
        /// The point B.
        b: PointId,
        /// The point C.
        c: PointId,
        /// The point D.
        d: PointId,
    },
}

impl Command {
    /// The word that begins it.
    pub fn word(self) -> &'static [u8]
        ensures { (nodes : Store) → result.now ≡ (command_form nodes self).word }
    {
        match self {
            Command::Point => b"point",
            Command::Param => b"param",
            Command::Line { .. } => b"line",
            Command::Parallel { .. } => b"parallel",
            Command::Perp { .. } => b"perp",
            Command::Med { .. } => b"med",
            Command::Intersec { .. } => b"intersec",
            Command::Inter { .. } => b"inter",
            Command::Foot { .. } => b"foot",
            Command::Pratio { .. } => b"pratio",
            Command::Tratio { .. } => b"tratio",
            Command::Online { .. } => b"online",
            Command::Lratio { .. } => b"lratio",
            Command::Midpoint { .. } => b"midpoint",
            Command::Translate { .. } => b"translate",
            Command::Symmetric { .. } => b"symmetric",
            Command::Reflect { .. } => b"reflect",
            Command::Circumcenter { .. } => b"circumcenter",
            Command::Orthocenter { .. } => b"orthocenter",
            Command::Centroid { .. } => b"centroid",
            Command::Oncircle { .. } => b"oncircle",
            Command::Second { .. } => b"second",
            Command::Cc { .. } => b"cc",
            Command::Inverse { .. } => b"inverse",
            Command::Weights { .. } => b"weights",
            Command::AssumeDifferent { .. }
            | Command::AssumeNotCollinear { .. }
            | Command::AssumeNotParallel { .. } => b"assume",
        }
    }

    /// The word of the condition that it assumes, if it is an assumption.
    pub fn condition(self) -> Option<&'static [u8]>
        ensures { (nodes : Store)
            → option_map (λ word. word.now) result ≡ (command_form nodes self).condition }
    {
        match self {
            Command::AssumeDifferent { .. } => Some(b"different"),
            Command::AssumeNotCollinear { .. } => Some(b"not_collinear"),
            Command::AssumeNotParallel { .. } => Some(b"not_parallel"),
            _ => None,
        }
    }

    /// What its new name names. An assumption has no name.
    pub fn makes(self) -> Option<NameKind>
        ensures { (nodes : Store) → result ≡ (command_form nodes self).made }
    {
        match self {
            Command::Param => Some(NameKind::Param),
            Command::Line { .. }
            | Command::Parallel { .. }
            | Command::Perp { .. }
            | Command::Med { .. } => Some(NameKind::Line),
            Command::AssumeDifferent { .. }
            | Command::AssumeNotCollinear { .. }
            | Command::AssumeNotParallel { .. } => None,
            _ => Some(NameKind::Point),
        }
    }

    /// How many new names it has.
    pub fn name_count(self) -> usize
        ensures { (nodes : Store) → result ≡ length (kinds_made (command_form nodes self)) }
    {
        match self.makes() {
            Some(_) => 1,
            None => 0,
        }
    }
}

/// Commands, in order. Contracts see the list.
#[derive(Debug, Drop)]
pub struct Commands {
    /// The commands.
    pub items: Vec<Command>,
}

impl Model for Commands {
    ghost use Rattle.std.specs.Prelude.{List};
    ghost use Rattle.geo_program.specs.declared.commands.Command.{Command};

    ghost Value = { List Command };

    ghost view = { λ commands. commands.items.items };
}

impl Commands {
    /// The commands, in order.
    pub fn as_slice(&self) -> &[Command]
        ensures { result.now ≡ self.now }
    {
        self.items.as_slice()
    }
}
