//! Polynomials and errors as texts, spelt as in a log.

ghost use Rattle.std.specs.Prelude.{◌<◌, length};

use elim_apply::ApplyError;
use geo_points::NoMemory;
use geo_poly::{Poly, Var, Which};
use std::alloc::Global;

// The name of a variable.
pub fn name_of(alloc: Global, var: Var) -> Result<String, NoMemory> {
    let name = match var {
        Var::R(a, b, c, d) => format!(in alloc; "R{}.{}.{}.{}", a.0, b.0, c.0, d.0)?,
        Var::S(a, b, c) => format!(in alloc; "S{}.{}.{}", a.0, b.0, c.0)?,
        Var::P(a, b, c) => format!(in alloc; "P{}.{}.{}", a.0, b.0, c.0)?,
        Var::X(a) => format!(in alloc; "x{}", a.0)?,
        Var::Y(a) => format!(in alloc; "y{}", a.0)?,
        Var::T(t) => format!(in alloc; "t{}", t.0)?,
    };
    Ok(name)
}

// Appends the monomial at a place with its coefficient.
fn push_term(alloc: Global, out: &mut String, poly: &Poly, i: u64) -> Result<(), NoMemory>
    requires { i < length poly.now }
{
    write!(out, " {:+}", poly.coefficient(i))?;
    for j in 0..poly.powers(i) {
        let (var, exponent) = poly.power(i, j);
        let name = name_of(alloc, var)?;
        match exponent {
            1 => write!(out, "*{name}")?,
            _ => write!(out, "*{name}^{exponent}")?,
        }
    }
    Ok(())
}

// Appends the polynomial, with a space before each monomial.
pub fn push_poly(alloc: Global, out: &mut String, poly: &Poly) -> Result<(), NoMemory> {
    if poly.is_zero() {
        write!(out, " 0")?;
    }
    for i in 0..poly.terms() {
        push_term(alloc, out, poly, i)?;
    }
    Ok(())
}

// The word of an error.
pub fn error_text(error: ApplyError) -> &'static str {
    match error {
        ApplyError::NoRow => "no row",
        ApplyError::Spent => "spent",
        ApplyError::TooLarge(Which::Norm) => "too large norm",
        ApplyError::TooLarge(Which::Degree) => "too large degree",
        ApplyError::NoMemory => "no memory",
    }
}
