//! Calculations with fractions whose parts may be refused: a refused part refuses the whole.

ghost use Rattle.geo_place.specs.Reckonings.{HasResult, IsResult, Reckoning, ◌⊕◌, ◌⊖◌, ◌⊗◌, ◌⊘◌};
ghost use Rattle.geo_place.specs.Reckonings.{inverse as inverse_reckoned};
ghost use Rattle.geo_place.specs.Reckonings.{opposite as opposite_reckoned};

use frac_laws::{Frac, FracTooLarge};

/// The sum.
fn sum(a: &Frac, b: &Frac) -> Result<Frac, FracTooLarge>
    ensures { (e f : Reckoning) → IsResult a.now e → IsResult b.now f → HasResult (e ⊕ f) result }
{
    a.add(b)
}

/// The product.
fn product(a: &Frac, b: &Frac) -> Result<Frac, FracTooLarge>
    ensures { (e f : Reckoning) → IsResult a.now e → IsResult b.now f → HasResult (e ⊗ f) result }
{
    a.mul(b)
}

/// The sum of two results.
pub fn sum_of(
    a: Result<Frac, FracTooLarge>,
    b: Result<Frac, FracTooLarge>,
) -> Result<Frac, FracTooLarge>
    ensures { (e f : Reckoning) → HasResult e a → HasResult f b → HasResult (e ⊕ f) result }
{
    match (a, b) {
        (Ok(x), Ok(y)) => sum(&x, &y),
        _ => Err(FracTooLarge),
    }
}

/// The product of two results.
pub fn product_of(
    a: Result<Frac, FracTooLarge>,
    b: Result<Frac, FracTooLarge>,
) -> Result<Frac, FracTooLarge>
    ensures { (e f : Reckoning) → HasResult e a → HasResult f b → HasResult (e ⊗ f) result }
{
    match (a, b) {
        (Ok(x), Ok(y)) => product(&x, &y),
        _ => Err(FracTooLarge),
    }
}

/// The opposite of a result.
pub fn opposite_of(a: Result<Frac, FracTooLarge>) -> Result<Frac, FracTooLarge>
    ensures { (e : Reckoning) → HasResult e a → HasResult (opposite_reckoned e) result }
{
    match a {
        Ok(x) => Ok(x.opposite()),
        Err(refusal) => Err(refusal),
    }
}

/// The inverse of a result, and 0 for 0.
fn inverse_of(a: Result<Frac, FracTooLarge>) -> Result<Frac, FracTooLarge>
    ensures { (e : Reckoning) → HasResult e a → HasResult (inverse_reckoned e) result }
{
    match a {
        Ok(x) => Ok(x.inverse()),
        Err(refusal) => Err(refusal),
    }
}

/// The first result less the second.
pub fn difference_of(
    a: Result<Frac, FracTooLarge>,
    b: Result<Frac, FracTooLarge>,
) -> Result<Frac, FracTooLarge>
    ensures { (e f : Reckoning) → HasResult e a → HasResult f b → HasResult (e ⊖ f) result }
{
    sum_of(a, opposite_of(b))
}

/// The first result divided by the second, and 0 where that is 0.
pub fn quotient_of(
    a: Result<Frac, FracTooLarge>,
    b: Result<Frac, FracTooLarge>,
) -> Result<Frac, FracTooLarge>
    ensures { (e f : Reckoning) → HasResult e a → HasResult f b → HasResult (e ⊘ f) result }
{
    product_of(a, inverse_of(b))
}
