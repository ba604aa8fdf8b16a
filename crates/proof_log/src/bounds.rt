//! How many bytes the text of a line has at most.

ghost use Rattle.std.specs.Prelude.{◌≡◌, ◌+◌, ◌*◌, ◌≤◌, ◌∷◌, [], IfOk, IfSome, length, sum_by};
ghost use Rattle.std.specs.Fmt.{decimal};
ghost use Rattle.proof_log.specs.Inner.Names.{most_of_power};
ghost use Rattle.proof_log.specs.Lines.{factor_text, line_text, log_text, place_text};
ghost use Rattle.proof_log.specs.Lines.{polynomial_text, variable_name};

use crate::log::Line;
use crate::writer::{push_factor, push_line};
use geo_points::{NoMemory, PointId};
use geo_poly::{Factor, Poly, Var};
use std::alloc::Global;

/// A number of bytes that the text of a line does not pass, with its line feed: a quick one where
/// that is at most `enough`, and else the length itself.
pub fn length_bound(alloc: Global, line: &Line, enough: u64) -> Result<u64, NoMemory>
    ensures { IfOk result (λ n. length (log_text (line.now ∷ [])) ≤ n) }
{
    match quick_bound(alloc, line)? {
        Some(bound) if bound <= enough => Ok(bound),
        _ => text_length(alloc, line),
    }
}

/// The length of the text, with its line feed.
fn text_length(alloc: Global, line: &Line) -> Result<u64, NoMemory>
    ensures { IfOk result (λ n. n ≡ length (log_text (line.now ∷ []))) }
{
    let mut bytes = Vec::new(alloc);
    push_line(alloc, &mut bytes, line)?;
    bytes.push(b'\n')?;
    Ok(bytes.len() as u64)
}

/// A bound that takes no walk through the terms, where the line has a polynomial.
#[tactic(auto, using(crate::proofs::Lengths::start_bound, crate::proofs::Lengths::coords_bound, crate::proofs::Lengths::point_bound, crate::proofs::Lengths::ratio_bound, crate::proofs::Lengths::cut_bound))]
fn quick_bound(alloc: Global, line: &Line) -> Result<Option<u64>, NoMemory>
    ensures { IfOk result (λ bound. IfSome bound
        (λ n. length (log_text (line.now ∷ [])) ≤ n)) }
{
    match line {
        Line::Start(poly) => Ok(polynomial_bound(9, poly)),
        Line::Ratio {
            var,
            lemma,
            at,
            poly,
        } => {
            let head = name_bound(*var) + number_bound(*lemma) + place_bound(*at);
            Ok(polynomial_bound(14 + head, poly))
        }
        Line::Point { at, poly } => Ok(polynomial_bound(10 + number_bound(at.0), poly)),
        Line::Coords(poly) => Ok(polynomial_bound(10, poly)),
        Line::Cut { by, poly } => Ok(cut_bound(factor_length(alloc, by)?, poly)),
        _ => Ok(None),
    }
}

/// A bound for the line of a cut by a factor whose text has so many bytes.
fn cut_bound(factor: u64, poly: &Poly) -> Option<u64>
    ensures { IfSome result (λ n. 8 + factor + length (polynomial_text poly.now) ≤ n) }
{
    polynomial_bound(factor.checked_add(8)?, poly)
}

/// The length of the text of a factor.
fn factor_length(alloc: Global, by: &Factor) -> Result<u64, NoMemory>
    ensures { IfOk result (λ n. n ≡ length (factor_text by.now)) }
{
    let mut bytes = Vec::new(alloc);
    push_factor(alloc, &mut bytes, by)?;
    Ok(bytes.len() as u64)
}

/// A bound for a polynomial behind so many bytes: each term has its number, and each variable at
/// most once.
fn polynomial_bound(head: u64, poly: &Poly) -> Option<u64>
    ensures { IfSome result (λ n. head + length (polynomial_text poly.now) ≤ n) }
{
    let p = &poly.shared();
    let each = powers_bound(p.vars)?.checked_add(41)?;
    let terms = poly.terms().checked_mul(each)?;
    let sum = terms.checked_add(head)?;
    let bound = sum.checked_add(1)?;
    Some(bound)
}

/// A bound for a power of each of the variables.
fn powers_bound(vars: &[Var]) -> Option<u64>
    ensures { IfSome result (λ n. sum_by most_of_power vars.now ≤ n) }
{
    let mut total: u64 = 0;
    for v in vars {
        total = total.checked_add(7 + name_bound(*v))?;
    }
    Some(total)
}

/// A bound for the name of a variable.
#[tactic(auto, using(crate::proofs::Lengths::ratio_name, crate::proofs::Lengths::area_name, crate::proofs::Lengths::difference_name))]
fn name_bound(variable: Var) -> u64
    ensures name { length (variable_name variable) ≤ result }
    ensures small { result ≤ 44 }
{
    match variable {
        Var::R(a, b, c, d) => {
            4 + number_bound(a.0) + number_bound(b.0) + number_bound(c.0) + number_bound(d.0)
        }
        Var::S(a, b, c) => 3 + number_bound(a.0) + number_bound(b.0) + number_bound(c.0),
        Var::P(a, b, c) => 3 + number_bound(a.0) + number_bound(b.0) + number_bound(c.0),
        Var::X(a) => 1 + number_bound(a.0),
        Var::Y(a) => 1 + number_bound(a.0),
        Var::T(t) => 1 + number_bound(t.0),
    }
}

/// A bound for the point that a lemma looks at, where it looks at one.
#[tactic(auto, using(crate::proofs::Lengths::place_short))]
fn place_bound(at: Option<PointId>) -> u64
    ensures place { length (place_text at) ≤ result }
    ensures small { result ≤ 14 }
{
    match at {
        Some(point) => 4 + number_bound(point.0),
        None => 0,
    }
}

/// A bound for the digits of a number.
fn number_bound(n: u32) -> u64
    ensures digits { length (decimal n) ≤ result }
    ensures small { result ≤ 10 }
{
    if n < 10 {
        1
    } else if n < 100 {
        2
    } else {
        10
    }
}
