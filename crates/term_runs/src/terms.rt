//! Terms: a key with a coefficient.

ghost use Rattle.std.specs.Prelude.{◌≡◌, ◌+◌, ◌<◌, ◌↔◌, ◌+ℤ◌, ◌*ℤ◌, ℕ, ℤ, IsTrue, false, pos, true};
ghost use Rattle.std.specs.Prelude.{unsigned_abs};

/// A key with a coefficient. Keys are below the number `keys`, and coefficients less than the number
/// `size` in absolute value.
pub trait Term: Copy + Drop {
    ghost pair: { Self → ℕ × ℤ };

    ghost keys: { ℕ };

    ghost size: { ℕ };

    /// A term to fill room with.
    fn filler() -> Self;

    /// Whether its key is greater.
    fn is_before(self, other: Self) -> bool
        ensures { IsTrue result ↔ ((pair other).0 < (pair self).0) };

    /// Whether its coefficient is 0.
    fn is_zero(self) -> bool
        ensures { IsTrue result ↔ ((pair self).1 ≡ pos 0) };

    /// The term where it alone is taken, else the other, or where both are taken its key with the
    /// sum of both coefficients. It decides without a jump.
    fn taken(self, other: Self, left: bool, right: bool) -> Self
        requires { unsigned_abs (pair self).1 + unsigned_abs (pair other).1 < size }
        ensures left { left ≡ true → right ≡ false → pair result ≡ pair self }
        ensures right { left ≡ false → right ≡ true → pair result ≡ pair other }
        ensures both { left ≡ true → right ≡ true
            → pair result ≡ ((pair self).0, (pair self).1 +ℤ (pair other).1) };

    /// The sum of both keys with the product of both coefficients.
    fn times(self, other: Self) -> Self
        requires key { (pair self).0 + (pair other).0 < keys }
        requires coefficient { unsigned_abs ((pair self).1 *ℤ (pair other).1) < size }
        ensures { pair result
            ≡ ((pair self).0 + (pair other).0, (pair self).1 *ℤ (pair other).1) };
}
