//! The moves of a chain.

use geo_points::PointId;
use geo_poly::{Piece, Row, Var};
use std::marker::Model;

/// A move on a polynomial: which of its variables are replaced.
#[derive(Clone, Copy, Debug)]
pub enum Move {
    /// One ratio, by a lemma of this number at a point. Lemma 0 does not look at the point.
    Ratio { var: Var, lemma: u32, at: PointId },
    /// Each area and each Pythagoras difference that contains the point, by the point's step.
    Point(PointId),
    /// Each area and each Pythagoras difference of free points, by their coordinates.
    Coords,
}

/// Rows, in order. Contracts see the list.
#[derive(Drop)]
pub struct RowList {
    /// The rows.
    pub items: Vec<Row>,
}

impl Model for RowList {
    ghost use Rattle.std.specs.Prelude.{List};
    ghost use Rattle.geo_poly.specs.declared.rows.Row.{Row};

    ghost Value = { List Row };

    ghost view = { λ rows. rows.items.items };
}

/// What a move replaces in a polynomial.
#[derive(Drop)]
pub struct Replacement {
    /// A row for each variable that is replaced.
    pub rows: RowList,
    /// The denominator of the rows.
    pub den: Piece,
    /// The charge for the number of the step.
    pub charge: u128,
}
