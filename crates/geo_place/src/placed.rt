//! The points of a program, placed at values.

use geo_base::Text;
use std::marker::Model;

/// A named point where it is placed: at `(x / w, y / w)`, with the least w.
#[derive(Debug, Drop)]
pub struct At {
    /// The name of the point.
    pub name: Text,
    /// The line of its command in the canonical program, counted from 1.
    pub line: u64,
    /// The first coordinate, times w.
    pub x: i128,
    /// The second coordinate, times w.
    pub y: i128,
    /// The denominator, at least 1.
    pub w: i128,
}

/// Points where they are placed, in order of declaration. Contracts see the list.
#[derive(Debug, Drop)]
pub struct Points {
    /// The points.
    pub items: Vec<At>,
}

impl Model for Points {
    ghost use Rattle.std.specs.Prelude.{List};
    ghost use Rattle.geo_place.specs.declared.placed.At.{At};

    ghost Value = { List At };

    ghost view = { λ points. points.items.items };
}

/// The points of a program, and whether its statement holds in them.
#[derive(Debug, Drop)]
pub struct Placed {
    /// The points that have names.
    pub points: Points,
    /// Whether the statement holds.
    pub holds: bool,
}

/// Whole numbers. Contracts see the list.
#[derive(Debug, Drop)]
pub struct Ints {
    /// The numbers.
    pub items: Vec<i128>,
}

impl Model for Ints {
    ghost use Rattle.std.specs.Prelude.{List, ℤ};

    ghost Value = { List ℤ };

    ghost view = { λ ints. ints.items.items };
}
