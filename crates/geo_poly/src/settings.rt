//! What a replacement by chains is made with.

ghost use Rattle.std.specs.Prelude.{◌≡◌};

use crate::row_table::RowTable;
use crate::rows::Piece;
use crate::shared::Indexed;
use crate::variables::Var;
use std::marker::Model;

/// A polynomial as indices of a store that is told elsewhere.
#[derive(Drop)]
pub(crate) struct IndexList {
    pub(crate) items: Vec<Indexed>,
}

impl Model for IndexList {
    ghost use Rattle.geo_poly.specs.Shared.{Indices};

    ghost Value = { Indices };

    ghost view = { λ list. list.items.items };
}

impl IndexList {
    /// The indices.
    pub(crate) fn as_slice(&self) -> &[Indexed]
        ensures { result.now ≡ self.now }
    {
        self.items.as_slice()
    }
}

/// A piece, and its polynomial as indices.
#[derive(Clone, Copy)]
pub(crate) struct StoredPiece<'a> {
    /// The piece.
    pub piece: &'a Piece,
    /// The indices of its polynomial.
    pub list: &'a [Indexed],
}

/// What a replacement by chains is made with.
#[derive(Clone, Copy)]
pub(crate) struct Setting<'a> {
    /// The variables by their numbers.
    pub vars: &'a [Var],
    /// The rows.
    pub rows: &'a RowTable<'a>,
    /// The numerator of each row as indices.
    pub nums: &'a [IndexList],
    /// The denominator.
    pub den: StoredPiece<'a>,
    /// How many denominators each term is to get.
    pub top: u32,
}
