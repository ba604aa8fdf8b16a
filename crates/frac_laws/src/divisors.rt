//! Greatest common divisors.

ghost use Rattle.std.specs.Prelude.{pos, ◌≡◌, ◌<◌, ◌≤◌, ◌%◌, ◌^◌, ◌≤ℤ◌, unsigned_abs};
ghost use Rattle.std.specs.Int.{IsGcd};

/// The greatest common divisor of two numbers, whatever their signs. That of 0 and a number is the
/// number's absolute value, so `gcd(0, 0)` is 0. The least `i128`, which has no absolute value of
/// its own type, may not be given.
pub fn gcd(a: i128, b: i128) -> i128
    requires a_in { unsigned_abs a < 2 ^ 127 }
    requires b_in { unsigned_abs b < 2 ^ 127 }
    ensures not_negative { pos 0 ≤ℤ result }
    ensures greatest { IsGcd (unsigned_abs a) (unsigned_abs b) (unsigned_abs result) }
{
    common_divisor(a.unsigned_abs(), b.unsigned_abs()) as i128
}

/// The greatest common divisor of two numbers that are not negative.
pub fn common_divisor(a: u128, b: u128) -> u128
    requires a_in { a < 2 ^ 127 }
    requires b_in { b < 2 ^ 127 }
    ensures greatest { IsGcd a b result }
    ensures fits { result < 2 ^ 127 }
{
    let mut x = a;
    let mut y = b;
    while y != 0 {
        let rest = remainder(x, y);
        x = y;
        y = rest;
    }
    x
}

/// The remainder of a division. Most numbers have 64 bits, which are divided quicker.
fn remainder(a: u128, b: u128) -> u128
    requires { 1 ≤ b }
    ensures { result ≡ a % b }
{
    if a < b {
        return a;
    }
    if a <= u64::MAX as u128 {
        return (a as u64 % b as u64) as u128;
    }
    a % b
}
