//! The bounds of a polynomial, and the error of a call whose result would pass them.

use geo_points::NoMemory;

/// The greatest norm.
pub const MAX: i128 = i128::MAX;

/// The greatest total degree.
pub const MAX_DEGREE: u32 = 65_535;

/// Which bound of a polynomial is passed.
#[derive(Clone, Copy, Debug, PartialEq, Eq)]
pub enum Which {
    /// The sum of the absolute coefficients, at most `MAX`.
    Norm,
    /// The total degree, at most `MAX_DEGREE`.
    Degree,
}

/// Why an operation on polynomials has no result.
#[derive(Clone, Copy, Debug, PartialEq, Eq)]
pub enum PolyError {
    /// A bound is passed.
    TooLarge(Which),
    /// There was not enough memory.
    NoMemory,
}

impl From<NoMemory> for PolyError {
    ghost use Rattle.std.specs.Prelude.{◌≡◌};
    ghost use Rattle.geo_poly.specs.declared.limits.PolyError.TheVariants.{NoMemory as OutOfMemory};

    ghost from_gives = { λ _ e. e ≡ OutOfMemory };

    fn from(_error: NoMemory) -> PolyError {
        PolyError::NoMemory
    }
}
