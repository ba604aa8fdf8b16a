//! The cut line.

ghost use Rattle.std.specs.Prelude.{IfNone, IfOk, IfSome};
ghost use Rattle.geo_chain.specs.NextLines.{IsCutLine};
ghost use Rattle.geo_logs.specs.Defined.{NoCutDue};

use geo_points::NoMemory;
use geo_poly::{Poly, Var};
use proof_log::Line;
use std::alloc::Global;

/// The cut that is due at the polynomial, with these known variables; `None` where none is.
pub(crate) fn cut_line(alloc: Global, p: &Poly, known: &[Var]) -> Result<Option<Line>, NoMemory>
    ensures some { IfOk result (λ o. IfSome o (IsCutLine known.now p.now)) }
    ensures none { IfOk result (λ o. IfNone o (NoCutDue known.now p.now)) }
{
    // From here on it is known that the polynomial is in order and within its bounds.
    prove!(p.is_valid());
    if p.is_zero() {
        return Ok(None);
    }
    let by = p.cut(alloc, known)?;
    if by.is_one() {
        return Ok(None);
    }
    match p.divide(alloc, &by)? {
        Some(poly) => Ok(Some(Line::Cut { by, poly })),
        None => unreachable!(),
    }
}
