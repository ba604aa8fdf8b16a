//! The nodes of terms.

use geo_points::{ParamId, PointId, TermId};

/// A term over its parts, which are named by their indices in the store.
#[derive(Clone, Copy, Debug, PartialEq, Eq, PartialOrd, Ord)]
pub enum Node {
    /// A whole number.
    Int(i128),
    /// A parameter.
    Param(ParamId),
    /// The signed area of the triangle ABC.
    S(PointId, PointId, PointId),
    /// The Pythagoras difference AB² + CB² − AC².
    P(PointId, PointId, PointId),
    /// The ratio AB / CD of parallel segments.
    R(PointId, PointId, PointId, PointId),
    /// The opposite number.
    Neg(TermId),
    /// The sum.
    Add(TermId, TermId),
    /// The first less the second.
    Sub(TermId, TermId),
    /// The product.
    Mul(TermId, TermId),
    /// The first divided by the second.
    Div(TermId, TermId),
}
