//! Each call once with ample memory, against values worked out by hand and the least samples of
//! small figures.

ghost use Rattle.std.specs.Prelude.{◌^◌, ◌<◌, unsigned_abs};

use geo_base::Budget;
use geo_points::{ParamId, PointId};
use geo_poly::lists::{Polys, Values, Vars};
use geo_poly::{Poly, Var, Which};
use geo_sample::{SampleError, least_sample_uncounted, none_zero, values_hold_uncounted};
use std::alloc::Global;
use std::test::Fail;

const T0: Var = Var::T(ParamId(0));

const X0: Var = Var::X(PointId(0));

const Y0: Var = Var::Y(PointId(0));

const X1: Var = Var::X(PointId(1));

const Y1: Var = Var::Y(PointId(1));

const X2: Var = Var::X(PointId(2));

const Y2: Var = Var::Y(PointId(2));

const X3: Var = Var::X(PointId(3));

const Y3: Var = Var::Y(PointId(3));

/// The terms of a polynomial: each a coefficient and its variables.
type Sum = &'static [(i8, &'static [Var])];

/// The signed area of three free points, twice.
const AREA: Sum = &[
    (1, &[X0, Y1]),
    (-1, &[X0, Y2]),
    (-1, &[Y0, X1]),
    (1, &[Y0, X2]),
    (1, &[X1, Y2]),
    (-1, &[Y1, X2]),
];

/// The same less 1.
const AREA_LESS_ONE: Sum = &[
    (1, &[X0, Y1]),
    (-1, &[X0, Y2]),
    (-1, &[Y0, X1]),
    (1, &[Y0, X2]),
    (1, &[X1, Y2]),
    (-1, &[Y1, X2]),
    (-1, &[]),
];

/// The square of the distance of the points 2 and 3.
const DISTANCE: Sum = &[
    (1, &[X2, X2]),
    (-2, &[X2, X3]),
    (1, &[Y2, Y2]),
    (-2, &[Y2, Y3]),
    (1, &[X3, X3]),
    (1, &[Y3, Y3]),
];

/// What is 0 where the line of the points 0 and 1 is parallel to that of 2 and 3.
const PARALLEL: Sum = &[
    (1, &[X0, Y2]),
    (-1, &[X0, Y3]),
    (-1, &[Y0, X2]),
    (1, &[Y0, X3]),
    (-1, &[X1, Y2]),
    (1, &[X1, Y3]),
    (1, &[Y1, X2]),
    (-1, &[Y1, X3]),
];

const THREE_POINTS: &[Var] = &[X0, Y0, X1, Y1, X2, Y2];

const FOUR_POINTS: &[Var] = &[X0, Y0, X1, Y1, X2, Y2, X3, Y3];

/// Polynomials, variables, and the numbers of their least sample.
const SAMPLES: &[(&[Sum], &[Var], &[i128])] = &[
    (
        &[DISTANCE, PARALLEL],
        FOUR_POINTS,
        &[0, 0, 0, 1, 0, 0, 1, 0],
    ),
    (&[AREA_LESS_ONE], THREE_POINTS, &[0, 0, 0, 0, 0, 0]),
    (&[AREA], THREE_POINTS, &[0, 0, 0, 1, 1, 0]),
    (
        &[&[(1, &[T0])], &[(1, &[T0]), (-1, &[])], &[(1, &[])]],
        &[T0],
        &[2],
    ),
    (&[], &[X0, Y0, T0], &[0, 0, 0]),
    (&[AREA], &[], &[]),
];

/// The polynomial a t0 + b.
fn linear(alloc: Global, a: i128, b: i128) -> Result<Poly, Fail>
    requires a { unsigned_abs a < 2 ^ 127 }
    requires b { unsigned_abs b < 2 ^ 127 }
{
    let t = Poly::var(alloc, T0)?;
    let left = Poly::constant(alloc, a)?.mul(alloc, &t)?;
    Ok(left.add(alloc, &Poly::constant(alloc, b)?)?)
}

/// The polynomials t0, t0 - 1 and a t0 + b.
fn listed(alloc: Global, a: i128, b: i128) -> Result<Polys, Fail>
    requires a { unsigned_abs a < 2 ^ 127 }
    requires b { unsigned_abs b < 2 ^ 127 }
{
    let mut items = Vec::new(alloc);
    items.push(linear(alloc, 1, 0)?)?;
    items.push(linear(alloc, 1, -1)?)?;
    items.push(linear(alloc, a, b)?)?;
    Ok(Polys { items })
}

/// The product of a number and variables.
fn product(alloc: Global, number: i8, vars: &[Var]) -> Result<Poly, Fail> {
    let mut product = Poly::constant(alloc, number as i128)?;
    for v in vars {
        product = product.mul(alloc, &Poly::var(alloc, *v)?)?;
    }
    Ok(product)
}

/// The polynomial of these terms.
fn sum(alloc: Global, terms: Sum) -> Result<Poly, Fail> {
    let mut sum = Poly::zero(alloc);
    for (number, vars) in terms {
        sum = sum.add(alloc, &product(alloc, *number, vars)?)?;
    }
    Ok(sum)
}

/// The polynomials of these sums.
fn sums(alloc: Global, sums: &[Sum]) -> Result<Polys, Fail> {
    let mut items = Vec::new(alloc);
    for terms in sums {
        items.push(sum(alloc, terms)?)?;
    }
    Ok(Polys { items })
}

/// Whether the least sample has these numbers.
fn has_numbers(alloc: Global, polys: &Polys, vars: &[Var], numbers: &[i128]) -> Result<bool, Fail> {
    if !none_zero(&polys.items) {
        return Err(Fail::from("zero"));
    }
    let vars = Vars {
        items: Vec::from_slice(alloc, vars)?,
    };
    let mut budget = Budget { left: 1000 };
    match least_sample_uncounted(alloc, polys, &vars, &mut budget) {
        Ok(values) => Ok(are_numbers(&values, numbers)),
        Err(_) => Ok(false),
    }
}

/// Whether these are the numbers of the values.
fn are_numbers(values: &Values, numbers: &[i128]) -> bool {
    values.items.len() == numbers.len()
        && values
            .items
            .iter()
            .zip(numbers)
            .all(|(value, number)| value.1 == *number)
}

/// The one number of a sample.
fn number(values: &Values) -> Option<i128> {
    match values.items.as_slice() {
        [value] => Some(value.1),
        _ => None,
    }
}

/// The number of the least sample and what is left, or the error and what is left.
fn searched(
    alloc: Global,
    polys: &Polys,
    left: u64,
) -> Result<(Result<Option<i128>, SampleError>, u64), Fail> {
    if !none_zero(&polys.items) {
        return Err(Fail::from("zero"));
    }
    let vars = Vars {
        items: vec![in alloc; T0]?,
    };
    let mut budget = Budget { left };
    let found = least_sample_uncounted(alloc, polys, &vars, &mut budget);
    Ok((found.map(|values| number(&values)), budget.left))
}

#[test]
fn least_values_are_found(rt: HostRuntime) -> Result<(), Fail> {
    let alloc = rt.alloc();
    let polys = listed(alloc, 0, 1)?;
    assert_eq!(rt; searched(alloc, &polys, 12)?, (Ok(Some(2)), 0));
    assert_eq!(rt; searched(alloc, &polys, 11)?, (Err(SampleError::Spent), 3));
    let large = listed(alloc, 1 << 126, 0)?;
    assert_eq!(rt;
        searched(alloc, &large, 100)?,
        (Err(SampleError::TooLarge(Which::Norm)), 92)
    );
    Ok(())
}

#[test]
fn figures_have_least_samples(rt: HostRuntime) -> Result<(), Fail> {
    let alloc = rt.alloc();
    for (polys, vars, numbers) in SAMPLES {
        let polys = sums(alloc, polys)?;
        assert!(rt; has_numbers(alloc, &polys, vars, numbers)?, "{numbers:?}");
    }
    Ok(())
}

#[test]
fn values_are_tested(rt: HostRuntime) -> Result<(), Fail> {
    let alloc = rt.alloc();
    let polys = listed(alloc, 0, 1)?;
    for (number, answer) in [(2, Ok(true)), (1, Ok(false)), (-5, Ok(true))] {
        let values = Values {
            items: vec![in alloc; (T0, number)]?,
        };
        let mut budget = Budget { left: 5 };
        assert_eq!(rt;
            values_hold_uncounted(alloc, &polys, &values, &mut budget),
            answer
        );
        assert_eq!(rt; budget.left, 1);
    }
    Ok(())
}
