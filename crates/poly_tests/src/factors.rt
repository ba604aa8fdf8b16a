//! Factors, division and canonical areas against values worked out by hand.

ghost use Rattle.std.specs.Prelude.{◌^◌, ◌<◌, unsigned_abs};

use geo_points::PointId;
use geo_poly::lists::Factors;
use geo_poly::{Canon, Factor, Poly, Var, canon_s};
use std::alloc::Global;
use std::test::Fail;

const X0: Var = Var::X(PointId(0));

const Y0: Var = Var::Y(PointId(0));

/// A number, times x0 and times y0 where that is said.
fn term(alloc: Global, number: i128, x: bool, y: bool) -> Result<Poly, Fail>
    requires { unsigned_abs number < 2 ^ 127 }
{
    let mut product = Poly::constant(alloc, number)?;
    if x {
        product = product.mul(alloc, &Poly::var(alloc, X0)?)?;
    }
    if y {
        product = product.mul(alloc, &Poly::var(alloc, Y0)?)?;
    }
    Ok(product)
}

/// `first*y0 + second`, times x0 where that is said.
fn line(alloc: Global, first: i128, second: i128, x: bool) -> Result<Poly, Fail>
    requires first { unsigned_abs first < 2 ^ 127 }
    requires second { unsigned_abs second < 2 ^ 127 }
{
    let slope = term(alloc, first, x, true)?;
    let rest = term(alloc, second, x, false)?;
    Ok(slope.add(alloc, &rest)?)
}

#[test]
fn factors_are_cut(rt: HostRuntime) -> Result<(), Fail> {
    let alloc = rt.alloc();
    let table = [
        (4, -6, X0, 2, 1),
        (-4, 6, X0, -2, 1),
        (4, -6, Y0, 2, 0),
        (5, 3, X0, 1, 1),
    ];
    for (first, second, known, coefficient, powers) in table {
        let poly = line(alloc, first, second, true)?;
        assert!(rt; !poly.is_zero());
        let factor = poly.cut(alloc, &[known])?;
        assert_eq!(rt; factor.coef(), coefficient);
        assert_eq!(rt; factor.powers(), powers);
        if factor.powers() > 0 {
            assert_eq!(rt; factor.power(0), (X0, 1));
        }
    }
    Ok(())
}

#[test]
fn factors_are_divided_out(rt: HostRuntime) -> Result<(), Fail> {
    let alloc = rt.alloc();
    let poly = line(alloc, 4, -6, true)?;
    let mut factor = Factor::new(alloc, -2)?;
    factor.times(X0, 1)?;
    let quotient = line(alloc, -2, 3, false)?;
    match poly.divide(alloc, &factor.copy(alloc)?)? {
        Some(rest) => assert!(rt; rest.same(&quotient)),
        None => assert!(rt; false),
    }
    let five = Factor::new(alloc, 5)?;
    assert!(rt; poly.divide(alloc, &five)?.is_none());
    assert!(rt; !five.is_one());
    Ok(())
}

#[test]
fn areas_are_sorted(rt: HostRuntime) {
    let sorted = Some(Var::S(PointId(1), PointId(4), PointId(7)));
    let table = [
        ([1, 4, 7], 1, sorted),
        ([4, 7, 1], 1, sorted),
        ([7, 1, 4], 1, sorted),
        ([4, 1, 7], -1, sorted),
        ([1, 7, 4], -1, sorted),
        ([7, 4, 1], -1, sorted),
        ([4, 4, 7], 0, None),
        ([4, 7, 7], 0, None),
        ([7, 4, 7], 0, None),
    ];
    for ([a, b, c], sign, var) in table {
        let form = canon_s(PointId(a), PointId(b), PointId(c));
        assert_eq!(rt; form, Canon { sign, var }, "at {a} {b} {c}");
    }
}

#[test]
fn factors_are_gathered(rt: HostRuntime) -> Result<(), Fail> {
    let alloc = rt.alloc();
    let mut first = Factor::new(alloc, 3)?;
    first.times(X0, 1)?;
    let second = Factor::new(alloc, -2)?;
    assert!(rt; first.before(&second));
    assert!(rt; !second.before(&first));
    let list = Factors {
        items: vec![in alloc; first, second]?,
    };
    let poly = Poly::gather(alloc, &list)?;
    assert_eq!(rt; poly.terms(), 2);
    assert_eq!(rt; poly.coefficient(0), 3);
    assert_eq!(rt; poly.coefficient(1), -2);
    Ok(())
}
