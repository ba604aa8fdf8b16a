//! The frame of the coordinates.

ghost use Rattle.std.specs.Prelude.{◌≡◌, IfOk, pos};
ghost use Rattle.geo_poly.specs.Specialise.{specialised};
ghost use Rattle.geo_chain.specs.Frames.{at_origin};
ghost use Rattle.geo_chain.specs.InFrame.{framed_line, is_in_frame};

use geo_points::{NoMemory, PointId};
use geo_poly::{Poly, PolyError, Var};
use proof_log::Line;
use std::alloc::Global;

/// Where the points stand.
#[derive(Clone, Copy, Debug, PartialEq, Eq)]
pub enum Frame {
    /// Anywhere.
    Full,
    /// The first one at the origin.
    Fixed,
}

impl Frame {
    /// The line of a step in this frame: what a move to coordinates gives is taken at the origin.
    pub(crate) fn framed(self, alloc: Global, line: Line) -> Result<Line, NoMemory>
        ensures { IfOk result (λ l. l ≡ framed_line self line) }
    {
        if self == Frame::Full {
            return Ok(line);
        }
        match line {
            Line::Coords(poly) => Ok(Line::Coords(at_origin(alloc, &poly)?)),
            other => Ok(other),
        }
    }

    /// Whether the variable has no value yet in this frame.
    pub(crate) fn leaves_open(self, v: Var) -> bool
        ensures { result ≡ is_in_frame self v }
    {
        match v {
            Var::X(a) | Var::Y(a) => self == Frame::Full || a.0 != 0,
            _ => true,
        }
    }
}

/// The polynomial with 0 for both coordinates of the first point.
fn at_origin(alloc: Global, p: &Poly) -> Result<Poly, NoMemory>
    ensures { IfOk result (λ q. q ≡ at_origin p.now) }
{
    let p = without(alloc, p, Var::X(PointId(0)))?;
    without(alloc, &p, Var::Y(PointId(0)))
}

/// The polynomial with 0 for a variable. 0 takes no norm past its limit, so memory alone can be
/// wanting.
fn without(alloc: Global, p: &Poly, v: Var) -> Result<Poly, NoMemory>
    ensures { IfOk result (λ q. q ≡ specialised v (pos 0) p.now) }
{
    match p.specialise(alloc, v, 0) {
        Ok(q) => Ok(q),
        Err(PolyError::NoMemory | PolyError::TooLarge(_)) => Err(NoMemory),
    }
}
