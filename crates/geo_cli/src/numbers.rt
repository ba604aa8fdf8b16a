//! Numbers among the words of the command line.
ghost use Rattle.std.specs.Prelude.{◌≡◌, ◌≤◌, ℕ, IfSome};
ghost use Rattle.geo_cli.specs.Numbers.{WritesDecimal};

use geo_base::read_decimal;

/// The number from 1 to `most` that the text writes, in decimal digits without a leading zero.
pub fn number_of(text: &[u8], most: u64) -> Option<u64>
    ensures written { IfSome result (WritesDecimal text.now) }
    ensures least { IfSome result (λ number. 1 ≤ number) }
    ensures most { IfSome result (λ number. number ≤ most) }
    ensures complete { (number : ℕ) → WritesDecimal text.now number → 1 ≤ number → number ≤ most
        → result ≡ Some number }
{
    if let [b'0', ..] = text {
        return None;
    }
    match read_decimal(text) {
        Ok(number) if 1 <= number && number <= most as i128 => Some(number as u64),
        _ => None,
    }
}
