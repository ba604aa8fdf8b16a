//! Polynomials as texts.

ghost use Rattle.std.specs.Prelude.{◌<◌, length};

use geo_poly::{Poly, Var};
use std::alloc::{AllocError, Global};

/// The name of a variable.
pub fn named(alloc: Global, v: Var) -> Result<String, AllocError> {
    match v {
        Var::R(a, b, c, d) => format!(in alloc; "R{}.{}.{}.{}", a.0, b.0, c.0, d.0),
        Var::S(a, b, c) => format!(in alloc; "S{}.{}.{}", a.0, b.0, c.0),
        Var::P(a, b, c) => format!(in alloc; "P{}.{}.{}", a.0, b.0, c.0),
        Var::X(a) => format!(in alloc; "x{}", a.0),
        Var::Y(a) => format!(in alloc; "y{}", a.0),
        Var::T(t) => format!(in alloc; "t{}", t.0),
    }
}

/// A term as `-3*x0*y0^2`.
fn spelled_term(alloc: Global, poly: &Poly, i: u64) -> Result<String, AllocError>
    requires { i < length poly.now }
{
    let mut text = format!(in alloc; "{:+}", poly.coefficient(i))?;
    for j in 0..poly.powers(i) {
        let (v, exponent) = poly.power(i, j);
        text.push_str("*")?;
        text.push_str(named(alloc, v)?.as_str())?;
        if exponent > 1 {
            text.push_str(format!(in alloc; "^{exponent}")?.as_str())?;
        }
    }
    Ok(text)
}

/// The terms in order, and `0` where there is none.
pub fn spelled(alloc: Global, poly: &Poly) -> Result<String, AllocError> {
    if poly.is_zero() {
        return String::from_str(alloc, "0");
    }
    let mut text = String::new(alloc);
    for i in 0..poly.terms() {
        if i > 0 {
            text.push_str(" ")?;
        }
        text.push_str(spelled_term(alloc, poly, i)?.as_str())?;
    }
    Ok(text)
}
