//! The cuts of a chain.

ghost use Rattle.std.specs.Prelude.{◌≡◌, ◌↔◌, Contains, IfErr, IfOk, IsTrue};
ghost use Rattle.geo_logs.specs.Judging.{IsByKnown, IsCutRefused};
ghost use Rattle.geo_poly.specs.Cuts.{IsCut};
ghost use Rattle.geo_poly.specs.Polynomials.{Summands};
ghost use Rattle.log_checker.specs.Inner.Lines.{Tells};

use crate::reasons::Reason;
use crate::stops::Stop;
use geo_poly::lists::Vars;
use geo_poly::{Factor, Poly, Var};
use std::alloc::Global;

/// The polynomial after a cut line with this factor and this polynomial.
pub(crate) fn after_cut(
    alloc: Global,
    known: &Vars,
    before: &Poly,
    by: &Factor,
    poly: &Poly,
) -> Result<Poly, Stop>
    ensures result { IfOk result (λ q. q ≡ poly.now) }
    ensures cut { IfOk result (IsCut known.now by.now before.now) }
    ensures refused { IfErr result (Tells
        (IsCutRefused known.now before.now by.now poly.now)) }
{
    let quotient = cut_result(alloc, known, before, by)?;
    if !quotient.same(poly) {
        return Err(Stop::Rejected(Reason::WrongPoly));
    }
    Ok(quotient)
}

/// The polynomial after a cut by this factor. What refuses the cut refuses its line, whatever
/// polynomial it has.
pub(crate) fn cut_result(
    alloc: Global,
    known: &Vars,
    before: &Poly,
    by: &Factor,
) -> Result<Poly, Stop>
    ensures cut { IfOk result (IsCut known.now by.now before.now) }
    ensures refused { (q : Summands) → IfErr result (Tells
        (IsCutRefused known.now before.now by.now q)) }
{
    // From here on it is known that the factor is one.
    prove!(by.coef() != 0);
    if !is_by_known(&known.items, by) {
        return Err(Stop::Rejected(Reason::WrongCut));
    }
    let Some(quotient) = before.divide(alloc, by)? else {
        return Err(Stop::Rejected(Reason::WrongCut));
    };
    Ok(quotient)
}

/// Whether all variables of the factor are known.
pub(crate) fn is_by_known(known: &[Var], by: &Factor) -> bool
    ensures { IsTrue result ↔ IsByKnown known.now by.now.0 }
{
    for j in 0..by.powers() {
        let (v, _) = by.power(j);
        if !is_known(known, v) {
            return false;
        }
    }
    true
}

/// Whether the variable is known.
fn is_known(known: &[Var], v: Var) -> bool
    ensures { IsTrue result ↔ Contains known.now v }
{
    known.contains(&v)
}
