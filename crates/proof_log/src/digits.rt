//! Numbers of one digit, which most numbers of a line are.

ghost use Rattle.std.specs.Prelude.{◌≡◌, false, [], ◌∷◌, IfSome};
ghost use Rattle.proof_log.specs.Inner.Reading.{Begins, StopsAt, is_number_byte, naturals};
ghost use Rattle.proof_log.specs.Inner.Reading.{number_lists};

/// A number of one digit at the beginning, and what is behind it.
#[tactic(auto, using(crate::proofs::Found::digit_read))]
pub(crate) fn lone_digit(bytes: &[u8]) -> Option<(u32, &[u8])>
    ensures { IfSome result (λ p. Begins (naturals 32) bytes.now p.0 p.1.now) }
{
    let (first, rest) = bytes.split_first()?;
    if !first.is_ascii_digit() || begins_with_number_byte(rest) {
        return None;
    }
    Some(((*first - b'0') as u32, rest))
}

// A number of one digit with a dot behind it, and what is behind the dot.
fn dotted_digit(bytes: &[u8]) -> Option<(u32, &[u8])>
    ensures { IfSome result (λ p. Begins (naturals 32) bytes.now p.0 (46 ∷ p.1.now)) }
{
    let (first, more) = bytes.split_first()?;
    let (dot, rest) = more.split_first()?;
    if !first.is_ascii_digit() || *dot != b'.' {
        return None;
    }
    Some(((*first - b'0') as u32, rest))
}

/// Three numbers of one digit with dots between them, and what is behind them.
#[tactic(auto, using(crate::proofs::Found::lone_digits_read))]
pub(crate) fn lone_digits(bytes: &[u8]) -> Option<(u32, u32, u32, &[u8])>
    ensures { IfSome result (λ p.
        Begins (number_lists 3) bytes.now (p.0 ∷ p.1 ∷ p.2 ∷ []) p.3.now) }
{
    let (a, behind_a) = dotted_digit(bytes)?;
    let (b, behind_b) = dotted_digit(behind_a)?;
    let (c, rest) = lone_digit(behind_b)?;
    Some((a, b, c, rest))
}

// Whether the bytes begin with a digit or `-`.
fn begins_with_number_byte(bytes: &[u8]) -> bool
    ensures { result ≡ false → StopsAt is_number_byte bytes.now }
{
    match bytes {
        [first, ..] => is_number_byte(*first),
        [] => false,
    }
}

/// Whether a byte is a digit or `-`.
pub(crate) fn is_number_byte(byte: u8) -> bool
    ensures { result ≡ is_number_byte byte }
{
    byte == b'-' || byte.is_ascii_digit()
}
