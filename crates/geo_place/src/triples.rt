//! Points as triples of whole numbers.

ghost use Rattle.std.specs.Prelude.{◌≡◌, ◌<◌, ◌≤◌, ◌^◌, ◌/◌, ◌*ℤ◌, ◌⊎◌, IfOk, IsErr, pos, unsigned_abs};
ghost use Rattle.frac_laws.specs.Lowest.{IsPast};
ghost use Rattle.geo_points.specs.Points.{Point};
ghost use Rattle.geo_place.specs.Evaluation.{IsTriplePast};
ghost use Rattle.geo_place.specs.Inner.{IsTripleOf, point_at};

use crate::positions::Position;
use frac_laws::{FracTooLarge, gcd};

/// The point `(x / w, y / w)`, with the least w.
#[derive(Clone, Copy, Debug, PartialEq, Eq)]
pub struct Triple {
    /// The first coordinate, times w.
    pub x: i128,
    /// The second coordinate, times w.
    pub y: i128,
    /// The denominator, at least 1.
    pub w: i128,
}

/// The product of two numbers.
fn product(a: i128, b: i128) -> Result<i128, FracTooLarge>
    ensures product { IfOk result (λ n. n ≡ a *ℤ b) }
    ensures fits { IfOk result (λ n. unsigned_abs (a *ℤ b) < 2 ^ 127) }
    ensures past { IsErr result → IsPast (a *ℤ b) }
{
    match a.checked_mul(b) {
        Some(n) if n != i128::MIN => Ok(n),
        _ => Err(FracTooLarge),
    }
}

/// The quotient of two numbers that are not negative.
fn quotient(e: i128, g: i128) -> i128
    requires some { 1 ≤ unsigned_abs g }
    requires fits { unsigned_abs e < 2 ^ 127 }
    ensures { result ≡ pos (unsigned_abs e / unsigned_abs g) }
{
    (e.unsigned_abs() / g.unsigned_abs()) as i128
}

/// The triple `(x left, y right, w left)`.
fn times(x: i128, y: i128, w: i128, left: i128, right: i128) -> Result<Triple, FracTooLarge>
    ensures triple { IfOk result (λ t.
        (t.x ≡ x *ℤ left) × (t.y ≡ y *ℤ right) × (t.w ≡ w *ℤ left)) }
    ensures fits { IfOk result (λ t.
        IsPast (x *ℤ left) ⊎ (IsPast (y *ℤ right) ⊎ IsPast (w *ℤ left)) → ⊥) }
    ensures past { IsErr result →
        IsPast (x *ℤ left) ⊎ (IsPast (y *ℤ right) ⊎ IsPast (w *ℤ left)) }
{
    Ok(Triple {
        x: product(x, left)?,
        y: product(y, right)?,
        w: product(w, left)?,
    })
}

/// The triple of a position, over the least common multiple of its two denominators.
pub fn triple_of(at: &Position) -> Result<Triple, FracTooLarge>
    ensures triple { IfOk result (λ t. IsTripleOf t (point_at at.now)) }
    ensures fits { IfOk result (λ t. IsTriplePast (point_at at.now) → ⊥) }
    ensures past { IsErr result → IsTriplePast (point_at at.now) }
{
    let common = gcd(at.x.den, at.y.den);
    let left = quotient(at.y.den, common);
    let right = quotient(at.x.den, common);
    times(at.x.num, at.y.num, at.x.den, left, right)
}
