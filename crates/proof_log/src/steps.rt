//! The polynomial of a line.

ghost use Rattle.std.specs.Prelude.{◌≡◌};
ghost use Rattle.proof_log.specs.Steps.{polynomial_on};

use crate::log::Line;
use geo_poly::Poly;

impl Line {
    /// The polynomial of the line, if it has one.
    pub fn into_polynomial(self) -> Option<Poly>
        ensures { result ≡ polynomial_on self }
    {
        match self {
            Line::Start(poly) => Some(poly),
            Line::Ratio { poly, .. } => Some(poly),
            Line::Point { poly, .. } => Some(poly),
            Line::Coords(poly) => Some(poly),
            Line::Cut { poly, .. } => Some(poly),
            _ => None,
        }
    }
}
