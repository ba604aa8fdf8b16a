//! Greatest common divisors and fractions, beside what was worked out by hand.

use frac_laws::{Frac, FracTooLarge, gcd};

#[test]
fn gcd_of_known_pairs(rt: HostRuntime) {
    let most = i128::MAX;
    let table: [(i128, i128, i128); 10] = [
        (0, 0, 0),
        (0, -7, 7),
        (-7, 0, 7),
        (1, most, 1),
        (most, most, most),
        (-most, most, most),
        (12, 18, 6),
        (-12, 18, 6),
        (1071, -462, 21),
        (2584, 1597, 1),
    ];
    for (a, b, expected) in table {
        assert_eq!(rt; gcd(a, b), expected, "at {a} and {b}");
    }
}

#[test]
fn sums_and_products_of_known_fractions(rt: HostRuntime) {
    let most = i128::MAX;
    let table: [(
        (i128, i128),
        (i128, i128),
        Option<(i128, i128)>,
        Option<(i128, i128)>,
    ); 6] = [
        ((1, 2), (1, 3), Some((5, 6)), Some((1, 6))),
        ((1, 6), (-4, 12), Some((-1, 6)), Some((-1, 18))),
        ((0, -5), (7, -7), Some((-1, 1)), Some((0, 1))),
        ((most, 1), (1, 1), None, Some((most, 1))),
        ((most, 2), (-2, most), None, Some((-1, 1))),
        ((most, 1), (2, 1), None, None),
    ];
    for (first, second, sum, product) in table {
        let first = Frac::new(first.0, first.1);
        let second = Frac::new(second.0, second.1);
        assert_eq!(rt; terms(first.add(&second)), sum);
        assert_eq!(rt; terms(first.mul(&second)), product);
        assert!(rt; first.same(&first));
        assert!(rt; !first.same(&second));
    }
}

/// The numerator and the denominator of a result that was not refused.
fn terms(value: Result<Frac, FracTooLarge>) -> Option<(i128, i128)> {
    match value {
        Ok(found) => Some((found.num, found.den)),
        Err(FracTooLarge) => None,
    }
}
