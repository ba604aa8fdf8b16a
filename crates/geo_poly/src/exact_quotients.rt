//! Exact quotients of numbers.

ghost use Rattle.std.specs.Prelude.{◌≡◌, ◌≢◌, ◌^◌, ◌<◌, ℤ, ◌*ℤ◌, unsigned_abs, IfSome, IfNone};

/// What times d is c, where there is such a number.
pub(crate) fn exact_quotient(c: i128, d: i128) -> Option<i128>
    requires nonzero { unsigned_abs d ≢ 0 }
    requires fits { unsigned_abs c < 2 ^ 127 }
    ensures some { IfSome result (λ q. d *ℤ q ≡ c) }
    ensures none { IfNone result ((q : ℤ) → d *ℤ q ≡ c → ⊥) }
{
    if c % d == 0 { Some(c / d) } else { None }
}
