//! Quantities of points, as they are reckoned.

ghost use Rattle.std.specs.Prelude.{pos};
ghost use Rattle.ring_laws.specs.Fraction.{whole};
ghost use Rattle.frac_laws.specs.Numbers.{IsNumber};
ghost use Rattle.geo_points.specs.Points.{Point};
ghost use Rattle.geo_place.specs.Formulas.{cross_reckoned, dot_reckoned, one_half};
ghost use Rattle.geo_place.specs.Formulas.{ratio_reckoned, rise_of, run_of};
ghost use Rattle.geo_place.specs.Inner.{IsPosition};
ghost use Rattle.geo_place.specs.Reckonings.{HasResult, known, ◌⊗◌};

use crate::positions::{Position, whole_number};
use crate::results::{difference_of, product_of, quotient_of, sum_of};
use frac_laws::{Frac, FracTooLarge};

/// The first coordinate of `B - A`.
pub fn run(a: &Position, b: &Position) -> Result<Frac, FracTooLarge>
    ensures { (A B : Point) → IsPosition a.now A → IsPosition b.now B → HasResult (run_of A B) result }
{
    difference_of(Ok(b.x), Ok(a.x))
}

/// The second coordinate of `B - A`.
pub fn rise(a: &Position, b: &Position) -> Result<Frac, FracTooLarge>
    ensures { (A B : Point) → IsPosition a.now A → IsPosition b.now B → HasResult (rise_of A B) result }
{
    difference_of(Ok(b.y), Ok(a.y))
}

/// `(B - A) × (D - C)`.
pub fn cross(a: &Position, b: &Position, c: &Position, d: &Position) -> Result<Frac, FracTooLarge>
    ensures { (A B C D : Point) → IsPosition a.now A → IsPosition b.now B → IsPosition c.now C
        → IsPosition d.now D → HasResult (cross_reckoned A B C D) result }
{
    let first = product_of(run(a, b), rise(c, d));
    let second = product_of(rise(a, b), run(c, d));
    difference_of(first, second)
}

/// `(B - A) · (D - C)`.
pub fn dot(a: &Position, b: &Position, c: &Position, d: &Position) -> Result<Frac, FracTooLarge>
    ensures { (A B C D : Point) → IsPosition a.now A → IsPosition b.now B → IsPosition c.now C
        → IsPosition d.now D → HasResult (dot_reckoned A B C D) result }
{
    let first = product_of(run(a, b), run(c, d));
    let second = product_of(rise(a, b), rise(c, d));
    sum_of(first, second)
}

/// One half.
fn half() -> Frac
    ensures { IsNumber result one_half }
{
    Frac::new(1, 2)
}

/// The signed area of ABC, half of `(B - A) × (C - A)`.
pub fn area(a: &Position, b: &Position, c: &Position) -> Result<Frac, FracTooLarge>
    ensures { (A B C : Point) → IsPosition a.now A → IsPosition b.now B → IsPosition c.now C
        → HasResult (cross_reckoned A B A C ⊗ known one_half) result }
{
    product_of(cross(a, b, a, c), Ok(half()))
}

/// The Pythagoras difference of A, B and C, twice `(A - B) · (C - B)`.
pub fn pythagoras(a: &Position, b: &Position, c: &Position) -> Result<Frac, FracTooLarge>
    ensures { (A B C : Point) → IsPosition a.now A → IsPosition b.now B → IsPosition c.now C
        → HasResult (known (whole (pos 2)) ⊗ dot_reckoned B A B C) result }
{
    product_of(Ok(whole_number(2)), dot(b, a, b, c))
}

/// The ratio AB / CD, by the first coordinate in which C and D differ.
pub fn ratio(a: &Position, b: &Position, c: &Position, d: &Position) -> Result<Frac, FracTooLarge>
    ensures { (A B C D : Point) → IsPosition a.now A → IsPosition b.now B → IsPosition c.now C
        → IsPosition d.now D → HasResult (ratio_reckoned A B C D) result }
{
    if c.x.same(&d.x) {
        quotient_of(rise(a, b), rise(c, d))
    } else {
        quotient_of(run(a, b), run(c, d))
    }
}
