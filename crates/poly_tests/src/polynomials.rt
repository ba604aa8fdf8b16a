//! Each call that allocates, run once with ample memory against a value worked out by hand.

ghost use Rattle.std.specs.Prelude.{◌≡◌, ◌<◌, ◌≤◌, ◌^◌, IfOk, length, unsigned_abs};
ghost use Rattle.geo_poly.specs.Replace.{AllBounded, AllPowersSmall, IsBounded};
ghost use Rattle.poly_arena.specs.Chains.{IsLive};

use crate::spelling::{named, spelled};
use geo_points::{ParamId, PointId};
use geo_poly::{Piece, Poly, PolyError, Row, Ticks, Var, Which};
use mono_store::Monos;
use poly_arena::{Arena, Chain};
use std::alloc::{AllocError, Global};
use std::marker::Brand;
use std::sync::ledger::{Blank, Ledger};
use std::test::Fail;

/// The polynomial a x + b y, with the coordinates of the first point.
fn linear(alloc: Global, a: i32, b: i32) -> Result<Poly, PolyError> {
    let x = Poly::var(alloc, Var::X(PointId(0)))?;
    let y = Poly::var(alloc, Var::Y(PointId(0)))?;
    let left = Poly::constant(alloc, a as i128)?.mul(alloc, &x)?;
    let right = Poly::constant(alloc, b as i128)?.mul(alloc, &y)?;
    left.add(alloc, &right)
}

/// The polynomial with its own numbers as bounds.
#[tactic(auto, using(crate::proofs::Pieces::count_is_light))]
fn piece(poly: Poly) -> Piece
    ensures bounded { IsBounded result }
    ensures poly { result.poly ≡ poly }
{
    let weight = (poly.norm() as u128).max(1);
    let count = (poly.terms() as u128).max(1);
    let degree = poly.degree() as u128;
    Piece {
        poly,
        weight,
        count,
        degree,
    }
}

/// The number as a polynomial, and a copy of it.
fn spelled_number(alloc: Global, n: i128) -> Result<(String, String), Fail>
    requires { unsigned_abs n < 2 ^ 127 }
{
    let poly = Poly::constant(alloc, n)?;
    Ok((spelled(alloc, &poly)?, spelled_copy(alloc, &poly)?))
}

/// A copy of the polynomial.
fn spelled_copy(alloc: Global, poly: &Poly) -> Result<String, Fail> {
    Ok(spelled(alloc, &poly.copy(alloc)?)?)
}

/// The variable as a polynomial.
fn spelled_variable(alloc: Global, v: Var) -> Result<String, Fail> {
    spelled_copy(alloc, &Poly::var(alloc, v)?)
}

#[test]
fn polynomials_are_made(rt: HostRuntime) -> Result<(), Fail> {
    let alloc = rt.alloc();
    assert_eq!(rt; spelled(alloc, &Poly::zero(alloc))?.as_str(), "0");
    for (n, text) in [(0, "0"), (5, "+5"), (-7, "-7")] {
        let (made, copied) = spelled_number(alloc, n)?;
        assert_eq!(rt; made.as_str(), text);
        assert_eq!(rt; copied.as_str(), text);
    }
    let [a, b, c] = [PointId(0), PointId(1), PointId(2)];
    let table = [
        (Var::R(a, b, a, c), "+1*R0.1.0.2"),
        (Var::S(a, b, c), "+1*S0.1.2"),
        (Var::P(a, b, a), "+1*P0.1.0"),
        (Var::T(ParamId(3)), "+1*t3"),
    ];
    for (v, text) in table {
        assert_eq!(rt; spelled_variable(alloc, v)?.as_str(), text);
    }
    Ok(())
}

/// The sum of two.
fn spelled_sum(alloc: Global, left: &Poly, right: &Poly) -> Result<String, Fail> {
    Ok(spelled(alloc, &left.add(alloc, right)?)?)
}

/// The difference of two.
fn spelled_difference(alloc: Global, left: &Poly, right: &Poly) -> Result<String, Fail> {
    Ok(spelled(alloc, &left.sub(alloc, right)?)?)
}

/// The product of two.
fn spelled_product(alloc: Global, left: &Poly, right: &Poly) -> Result<String, Fail> {
    Ok(spelled(alloc, &left.mul(alloc, right)?)?)
}

/// Sum, difference and product of two, one behind the other.
fn spelled_all(alloc: Global, left: &Poly, right: &Poly) -> Result<String, Fail> {
    let mut text = spelled_sum(alloc, left, right)?;
    text.push_str("; ")?;
    text.push_str(spelled_difference(alloc, left, right)?.as_str())?;
    text.push_str("; ")?;
    text.push_str(spelled_product(alloc, left, right)?.as_str())?;
    Ok(text)
}

/// The same for two that are linear.
fn spelled_linear(alloc: Global, [a, b, c, d]: [i32; 4]) -> Result<String, Fail> {
    let left = linear(alloc, a, b)?;
    let right = linear(alloc, c, d)?;
    spelled_all(alloc, &left, &right)
}

#[test]
fn polynomials_are_combined(rt: HostRuntime) -> Result<(), Fail> {
    let table = [
        ([1, 1, 1, -1], "+2*x0; +2*y0; +1*x0^2 -1*y0^2"),
        ([1, 1, 1, 1], "+2*x0 +2*y0; 0; +1*x0^2 +2*x0*y0 +1*y0^2"),
        ([2, 0, 0, 3], "+2*x0 +3*y0; +2*x0 -3*y0; +6*x0*y0"),
        ([2, 3, 0, 0], "+2*x0 +3*y0; +2*x0 +3*y0; 0"),
    ];
    for (numbers, text) in table {
        assert_eq!(rt; spelled_linear(rt.alloc(), numbers)?.as_str(), text);
    }
    Ok(())
}

/// The sum of the variables.
fn sum_of(alloc: Global, variables: &[Var]) -> Result<Poly, PolyError> {
    let mut sum = Poly::zero(alloc);
    for v in variables {
        sum = with_variable(alloc, &sum, *v)?;
    }
    Ok(sum)
}

/// The polynomial with one variable more.
fn with_variable(alloc: Global, poly: &Poly, v: Var) -> Result<Poly, PolyError> {
    poly.add(alloc, &Poly::var(alloc, v)?)
}

/// The names of the variables of the square, in order.
fn names_in_square(alloc: Global, poly: &Poly) -> Result<String, Fail> {
    let variables = poly.mul(alloc, poly)?.variables(alloc)?;
    let mut text = String::new(alloc);
    for v in variables.as_slice() {
        text.push_str(named(alloc, *v)?.as_str())?;
        text.push_str(" ")?;
    }
    Ok(text)
}

#[test]
fn variables_stand_in_order(rt: HostRuntime) -> Result<(), Fail> {
    let alloc = rt.alloc();
    let [a, b, c] = [PointId(0), PointId(1), PointId(2)];
    let mixed = [
        Var::T(ParamId(0)),
        Var::Y(a),
        Var::X(b),
        Var::P(a, b, a),
        Var::X(a),
        Var::S(a, b, c),
        Var::R(a, b, a, c),
    ];
    let text = names_in_square(alloc, &sum_of(alloc, &mixed)?)?;
    assert_eq!(rt; text.as_str(), "R0.1.0.2 S0.1.2 P0.1.0 x0 y0 x1 t0 ");
    Ok(())
}

/// The row that puts c x + d y for x, over the denominator or over its square.
fn row_for_x(alloc: Global, c: i32, d: i32, is_square: bool) -> Result<Row, PolyError>
    ensures bounded { IfOk result (λ row. IsBounded row.num) }
    ensures small { IfOk result (λ row. row.power ≤ 2) }
{
    Ok(Row {
        var: Var::X(PointId(0)),
        power: if is_square { 2 } else { 1 },
        num: piece(linear(alloc, c, d)?),
    })
}

/// The polynomial with the row, over 2.
fn spelled_replacement<L: Ledger>(
    alloc: Global,
    poly: &Poly,
    row: Row,
    blank: Blank,
) -> Result<String, Fail>
    requires bounded { IsBounded row.num }
    requires small { row.power ≤ 2 }
    requires name { blank.name ≡ L.name }
    requires parts { blank.parts ≡ L.parts }
    requires some { 0 < blank.parts }
{
    let den = piece(Poly::constant(alloc, 2)?);
    let rows = [row];
    let mut ticks = Ticks::<L>::new(blank);
    Ok(spelled(alloc, &poly.replace(alloc, &rows, &den, &mut ticks)?)?)
}

/// The polynomial a x + b y with c x + d y for x.
fn spelled_row(alloc: Global, [a, b, c, d]: [i32; 4], is_square: bool) -> Result<String, Fail> {
    let row = row_for_x(alloc, c, d, is_square)?;
    spelled_replacement::<Brand>(alloc, &linear(alloc, a, b)?, row, Blank::new(1))
}

#[test]
fn variables_are_replaced(rt: HostRuntime) -> Result<(), Fail> {
    let table = [
        ([1, 1, 0, 1], false, "+3*y0"),
        ([1, 1, 0, 1], true, "+5*y0"),
        ([1, 0, 1, 1], false, "+1*x0 +1*y0"),
        ([0, 1, 1, 1], true, "+1*y0"),
    ];
    for (numbers, is_square, text) in table {
        assert_eq!(rt; spelled_row(rt.alloc(), numbers, is_square)?.as_str(), text);
    }
    Ok(())
}

/// The difference of two squares.
fn squares(alloc: Global) -> Result<Poly, PolyError> {
    let left = linear(alloc, 1, 1)?;
    left.mul(alloc, &linear(alloc, 1, -1)?)
}

/// The polynomial with the number for the variable.
fn spelled_special(alloc: Global, poly: &Poly, v: Var, number: i128) -> Result<String, Fail> {
    Ok(spelled(alloc, &poly.specialise(alloc, v, number)?)?)
}

#[test]
fn variables_get_numbers(rt: HostRuntime) -> Result<(), Fail> {
    let alloc = rt.alloc();
    let x = Var::X(PointId(0));
    let y = Var::Y(PointId(0));
    let squares = squares(alloc)?;
    assert_eq!(rt; squares.degree_in(x), 2);
    assert_eq!(rt; squares.degree_in(Var::T(ParamId(0))), 0);
    let table = [
        (x, 0, "-1*y0^2"),
        (y, 0, "+1*x0^2"),
        (x, 3, "-1*y0^2 +9"),
        (x, -3, "-1*y0^2 +9"),
        (y, 2, "+1*x0^2 -4"),
        (Var::T(ParamId(0)), 7, "+1*x0^2 -1*y0^2"),
    ];
    for (v, number, text) in table {
        assert_eq!(rt; spelled_special(alloc, &squares, v, number)?.as_str(), text);
    }
    Ok(())
}

/// The polynomial with 0 put for the variable in its place, which tells before whether it becomes zero.
fn spelled_at_zero(alloc: Global, mut poly: Poly, v: Var) -> Result<String, Fail> {
    let vanishes = poly.vanishes_at_zero(v);
    poly.put_zero(v);
    if vanishes != poly.is_zero() {
        return Err(Fail::from("vanishes_at_zero"));
    }
    Ok(spelled(alloc, &poly)?)
}

#[test]
fn zeros_are_put_in_place(rt: HostRuntime) -> Result<(), Fail> {
    let alloc = rt.alloc();
    let x = Var::X(PointId(0));
    let y = Var::Y(PointId(0));
    let table = [
        (x, "-1*y0^2"),
        (y, "+1*x0^2"),
        (Var::T(ParamId(0)), "+1*x0^2 -1*y0^2"),
    ];
    for (v, text) in table {
        assert_eq!(rt; spelled_at_zero(alloc, squares(alloc)?, v)?.as_str(), text);
    }
    assert_eq!(rt;
        spelled_at_zero(alloc, linear(alloc, 3, 0)?, x)?.as_str(),
        "0"
    );
    Ok(())
}

/// The polynomial with the number put for the variable in its place, which tells before whether it is
/// refused.
fn spelled_in_place(alloc: Global, mut poly: Poly, v: Var, number: i128) -> Result<String, Fail> {
    if poly.is_too_heavy(v, number) {
        return Err(Fail::from("is_too_heavy"));
    }
    poly.put_number(alloc, v, number)?;
    Ok(spelled(alloc, &poly)?)
}

#[test]
fn numbers_are_put_in_place(rt: HostRuntime) -> Result<(), Fail> {
    let alloc = rt.alloc();
    let x = Var::X(PointId(0));
    let y = Var::Y(PointId(0));
    let table = [
        (x, 3, "-1*y0^2 +9"),
        (y, 2, "+1*x0^2 -4"),
        (Var::T(ParamId(0)), 7, "+1*x0^2 -1*y0^2"),
    ];
    for (v, number, text) in table {
        assert_eq!(rt;
            spelled_in_place(alloc, squares(alloc)?, v, number)?.as_str(),
            text
        );
    }
    assert_eq!(rt;
        spelled_in_place(alloc, squares(alloc)?.specialise(alloc, x, 3)?, y, -3)?.as_str(),
        "0"
    );
    Ok(())
}

/// The difference of two squares with 3 for both variables, which is 0.
fn squares_at_three(alloc: Global) -> Result<String, Fail> {
    let at_three = squares(alloc)?.specialise(alloc, Var::X(PointId(0)), 3)?;
    spelled_special(alloc, &at_three, Var::Y(PointId(0)), -3)
}

#[test]
fn numbers_cancel(rt: HostRuntime) -> Result<(), Fail> {
    assert_eq!(rt; squares_at_three(rt.alloc())?.as_str(), "0");
    Ok(())
}

/// Whether a weight past the limit is refused, and one within it is not.
fn is_refused(alloc: Global, poly: &Poly, number: i128) -> bool {
    match poly.specialise(alloc, Var::X(PointId(0)), number) {
        Err(error) => error == PolyError::TooLarge(Which::Norm),
        Ok(_) => false,
    }
}

#[test]
fn numbers_are_refused_by_the_weight(rt: HostRuntime) -> Result<(), Fail> {
    let alloc = rt.alloc();
    let large = linear(alloc, 1 << 30, 0)?;
    assert!(rt; is_refused(alloc, &large, 1 << 97));
    assert!(rt; !is_refused(alloc, &large, (1 << 96) + 1));
    Ok(())
}

/// The pairs of a chain, each as `2:-1`, the key first. The chain is spent.
fn spelled_chain(alloc: Global, arena: &mut Arena, chain: Chain) -> Result<String, AllocError>
    requires { IsLive arena.old chain }
{
    let pairs = arena.to_list(alloc, &chain);
    arena.give_back(chain);
    let mut text = String::new(alloc);
    for (key, coefficient) in pairs?.as_slice() {
        text.push_str(format!(in alloc; " {key}:{coefficient:+}")?.as_str())?;
    }
    Ok(text)
}

/// The chain of a square in a new arena, and what is expected of `(a - b)^2` in its store.
fn square_in_arena(alloc: Global, poly: &Poly) -> Result<(String, String), Fail> {
    let vars = poly.vars();
    let mut store = Monos::new(alloc);
    let one = store.one();
    let first = store.mono(0, 2, one)?;
    let second = store.mono(1, 2, one)?;
    let last = store.mono(1, 1, one)?;
    let both = store.mono(0, 1, last)?;
    let wanted = format!(in alloc; " {}:+1 {}:-2 {}:+1", first.0, both.0, second.0)?;
    let mut arena = Arena::new(alloc)?;
    let chain = poly.mul_chain(alloc, poly, vars, &mut store, &mut arena)?;
    Ok((spelled_chain(alloc, &mut arena, chain)?, wanted))
}

#[test]
fn products_stand_in_a_callers_arena(rt: HostRuntime) -> Result<(), Fail> {
    let alloc = rt.alloc();
    let (chain, wanted) = square_in_arena(alloc, &linear(alloc, 1, -1)?)?;
    assert_eq!(rt; chain.as_str(), wanted.as_str());
    Ok(())
}

/// The chain in a new arena where half of `a + b` is put for `a` in it, and what is expected of it,
/// `a + 3 b`, in its store.
fn replacement_in_arena<L: Ledger>(
    alloc: Global,
    poly: &Poly,
    blank: Blank,
) -> Result<(String, String), Fail>
    requires name { blank.name ≡ L.name }
    requires parts { blank.parts ≡ L.parts }
    requires some { 0 < blank.parts }
{
    let rows = [Row {
        var: Var::X(PointId(0)),
        power: 1,
        num: piece(poly.copy(alloc)?),
    }];
    let den = piece(Poly::constant(alloc, 2)?);
    let mut store = Monos::new(alloc);
    let one = store.one();
    let first = store.mono(0, 1, one)?;
    let second = store.mono(1, 1, one)?;
    let wanted = format!(in alloc; " {}:+1 {}:+3", first.0, second.0)?;
    let mut arena = Arena::new(alloc)?;
    let mut ticks = Ticks::<L>::new(blank);
    let vars = poly.vars();
    let chain = poly.replace_chain(alloc, &rows, &den, vars, &mut store, &mut arena, &mut ticks)?;
    Ok((spelled_chain(alloc, &mut arena, chain)?, wanted))
}

#[test]
fn replacements_stand_in_a_callers_arena(rt: HostRuntime) -> Result<(), Fail> {
    let alloc = rt.alloc();
    let (poly, blank) = (linear(alloc, 1, 1)?, Blank::new(1));
    let (chain, wanted) = replacement_in_arena::<Brand>(alloc, &poly, blank)?;
    assert_eq!(rt; chain.as_str(), wanted.as_str());
    Ok(())
}

/// The variables of the polynomial, and the index of each monomial with its coefficient.
fn spelled_parts(alloc: Global, poly: &Poly) -> Result<String, AllocError> {
    let mut text = String::new(alloc);
    for v in poly.vars().as_slice() {
        text.push_str(named(alloc, *v)?.as_str())?;
    }
    for (id, coefficient) in poly.shared().list {
        text.push_str(format!(in alloc; " {}:{coefficient:+}", id.0)?.as_str())?;
    }
    Ok(text)
}

/// The index of the monomial at a place.
fn index_told(poly: &Poly, i: u64) -> u64
    requires { i < length poly.now }
{
    poly.mono_at(i).0
}

#[test]
fn parts_of_a_polynomial_are_told(rt: HostRuntime) -> Result<(), Fail> {
    let alloc = rt.alloc();
    let poly = linear(alloc, 2, -3)?;
    assert_eq!(rt; spelled_parts(alloc, &poly)?.as_str(), "x0y0 2:+2 1:-3");
    assert_eq!(rt; poly.monos().one().0, 0);
    if poly.terms() == 2 {
        assert_eq!(rt; index_told(&poly, 0), 2);
        assert_eq!(rt; index_told(&poly, 1), 1);
    }
    Ok(())
}
