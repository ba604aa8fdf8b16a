//! Reading what a line is made of.

ghost use Rattle.std.specs.Prelude.{◌≡◌, ◌+◌, ◌^◌, ◌<◌, ◌≤◌, ◌↔◌, ℕ, ℤ, List, [], ◌∷◌, ◌++◌};
ghost use Rattle.std.specs.Prelude.{length, unsigned_abs, slice_get, IsTrue, IsNone, IfSome};
ghost use Rattle.std.specs.Prelude.{OnSome, Some};
ghost use Rattle.std.specs.List.{prefix_len};
ghost use Rattle.geo_base.specs.Decimals.{IsDecimal, decimal_size, decimal_value};
ghost use Rattle.geo_poly.specs.Monomials.{degree_of};
ghost use Rattle.geo_poly.specs.declared.variables.Var.{Var};
ghost use Rattle.proof_log.specs.Writable.{CanWriteMonomial, IsSorted};
ghost use Rattle.proof_log.specs.Inner.Reading.{Begins, NoneBegins, Passes, StopsAt, coefficients};
ghost use Rattle.proof_log.specs.Inner.Reading.{exponents, integers, is_number_byte, is_power_byte};
ghost use Rattle.proof_log.specs.Inner.Reading.{names, naturals, number_lists, single_powers};
ghost use Rattle.proof_log.specs.Inner.Reading.{variables};

use crate::digits::{is_number_byte, lone_digit, lone_digits};
use geo_base::read_decimal;
use geo_points::{ParamId, PointId};
use geo_poly::{MAX_DEGREE, Var};
use std::marker::Model;

/// The bytes of a line that are still to be read.
#[derive(Drop)]
pub(crate) struct Reader<'a> {
    bytes: &'a [u8],
}

impl<'a> Model for Reader<'a> {
    ghost use Rattle.std.specs.Prelude.{ℕ, List};

    ghost Value = { List ℕ };

    ghost view = { λ r. r.bytes.now };
}

impl<'a> Reader<'a> {
    /// At the beginning of these bytes.
    pub fn new(bytes: &'a [u8]) -> Reader<'a>
        ensures { result ≡ bytes.now }
    {
        Reader { bytes }
    }

    /// The bytes to come.
    pub fn rest(&self) -> &'a [u8]
        ensures { result.now ≡ self.now }
    {
        self.bytes
    }

    /// Whether this byte stands next.
    pub fn is_next(&self, byte: u8) -> bool
        ensures { IsTrue result ↔ (slice_get self.now 0 ≡ Some byte) }
    {
        match self.bytes {
            [first, ..] => *first == byte,
            [] => false,
        }
    }

    /// Whether nothing is to come.
    pub fn is_at_end(&self) -> bool
        ensures { IsTrue result ↔ (self.now ≡ []) }
    {
        self.bytes.is_empty()
    }

    /// Whether this text is all that is to come.
    pub fn is_rest(&self, text: &[u8]) -> bool
        ensures { IsTrue result ↔ (self.now ≡ text.now) }
    {
        self.bytes == text
    }

    /// Goes past this text, where it stands next.
    pub fn literal(&mut self, text: &[u8]) -> Option<()>
        ensures some { OnSome result (self.old ≡ text.now ++ self.new) }
        ensures none { IsNone result → (rest : List ℕ) → self.old ≡ text.now ++ rest → ⊥ }
        ensures kept { IsNone result → self.new ≡ self.old }
    {
        let rest = self.bytes.strip_prefix(text)?;
        self.bytes = rest;
        Some(())
    }

    // Goes past digits and `-`, as many as there are.
    fn run(&mut self) -> &'a [u8]
        ensures split { self.old ≡ result.now ++ self.new }
        ensures all { Passes is_number_byte result.now }
        ensures stops { StopsAt is_number_byte self.new }
    {
        let count = run_length(self.bytes);
        let (run, rest) = self.bytes.split_at(count);
        self.bytes = rest;
        run
    }

    /// A whole number, in its one spelling.
    pub fn integer(&mut self) -> Option<i128>
        ensures some { IfSome result (λ z. Begins integers self.old z self.new) }
        ensures none { IsNone result → NoneBegins integers self.old }
    {
        let run = self.run();
        let number = read_decimal(run).ok()?;
        if is_canonical(run) {
            Some(number)
        } else {
            None
        }
    }

    /// A number of 64 bits.
    pub fn natural(&mut self) -> Option<u64>
        ensures some { IfSome result (λ n. Begins (naturals 64) self.old n self.new) }
        ensures none { IsNone result → NoneBegins (naturals 64) self.old }
    {
        let number = self.integer()?;
        if 0 <= number && number <= u64::MAX as i128 {
            Some(number as u64)
        } else {
            None
        }
    }

    /// A number of 32 bits.
    pub fn small(&mut self) -> Option<u32>
        ensures some { IfSome result (λ n. Begins (naturals 32) self.old n self.new) }
        ensures none { IsNone result → NoneBegins (naturals 32) self.old }
    {
        if let Some((number, rest)) = lone_digit(self.bytes) {
            self.bytes = rest;
            return Some(number);
        }
        self.longer()
    }

    // A number of 32 bits, of any length.
    fn longer(&mut self) -> Option<u32>
        ensures some { IfSome result (λ n. Begins (naturals 32) self.old n self.new) }
        ensures none { IsNone result → NoneBegins (naturals 32) self.old }
    {
        let number = self.natural()?;
        if number <= u32::MAX as u64 {
            Some(number as u32)
        } else {
            None
        }
    }

    // One number.
    fn one(&mut self) -> Option<u32>
        ensures some { IfSome result (λ a. Begins (number_lists 1) self.old (a ∷ []) self.new) }
        ensures none { IsNone result → NoneBegins (number_lists 1) self.old }
    {
        self.small()
    }

    // Two numbers with a dot between them.
    fn two(&mut self) -> Option<(u32, u32)>
        ensures some { IfSome result (λ p.
            Begins (number_lists 2) self.old (p.0 ∷ p.1 ∷ []) self.new) }
        ensures none { IsNone result → NoneBegins (number_lists 2) self.old }
    {
        let a = self.small()?;
        self.literal(b".")?;
        let b = self.one()?;
        Some((a, b))
    }

    // Three numbers with dots between them.
    fn three(&mut self) -> Option<(u32, u32, u32)>
        ensures some { IfSome result (λ p.
            Begins (number_lists 3) self.old (p.0 ∷ p.1 ∷ p.2 ∷ []) self.new) }
        ensures none { IsNone result → NoneBegins (number_lists 3) self.old }
    {
        if let Some((a, b, c, rest)) = lone_digits(self.bytes) {
            self.bytes = rest;
            return Some((a, b, c));
        }
        self.longer_three()
    }

    // Three numbers of any length with dots between them.
    fn longer_three(&mut self) -> Option<(u32, u32, u32)>
        ensures some { IfSome result (λ p.
            Begins (number_lists 3) self.old (p.0 ∷ p.1 ∷ p.2 ∷ []) self.new) }
        ensures none { IsNone result → NoneBegins (number_lists 3) self.old }
    {
        let a = self.small()?;
        self.literal(b".")?;
        let (b, c) = self.two()?;
        Some((a, b, c))
    }

    // Four numbers with dots between them.
    fn four(&mut self) -> Option<(u32, u32, u32, u32)>
        ensures some { IfSome result (λ p.
            Begins (number_lists 4) self.old (p.0 ∷ p.1 ∷ p.2 ∷ p.3 ∷ []) self.new) }
        ensures none { IsNone result → NoneBegins (number_lists 4) self.old }
    {
        let a = self.small()?;
        self.literal(b".")?;
        let (b, c, d) = self.three()?;
        Some((a, b, c, d))
    }

    // The next byte.
    fn byte(&mut self) -> Option<u8>
        ensures some { IfSome result (λ b. self.old ≡ b ∷ self.new) }
        ensures none { IsNone result → self.old ≡ [] }
    {
        let (first, rest) = self.bytes.split_first()?;
        self.bytes = rest;
        Some(*first)
    }

    // The name of a variable, sorted or not.
    fn name(&mut self) -> Option<Var>
        ensures some { IfSome result (λ v. Begins names self.old v self.new) }
        ensures none { IsNone result → NoneBegins names self.old }
    {
        match self.byte()? {
            b'R' => {
                let (a, b, c, d) = self.four()?;
                Some(Var::R(PointId(a), PointId(b), PointId(c), PointId(d)))
            }
            b'S' => {
                let (a, b, c) = self.three()?;
                Some(Var::S(PointId(a), PointId(b), PointId(c)))
            }
            b'P' => {
                let (a, b, c) = self.three()?;
                Some(Var::P(PointId(a), PointId(b), PointId(c)))
            }
            b'x' => Some(Var::X(PointId(self.one()?))),
            b'y' => Some(Var::Y(PointId(self.one()?))),
            b't' => Some(Var::T(ParamId(self.one()?))),
            _ => None,
        }
    }

    /// The name of a variable.
    pub fn variable(&mut self) -> Option<Var>
        ensures some { IfSome result (λ v. Begins variables self.old v self.new) }
        ensures none { IsNone result → NoneBegins variables self.old }
    {
        let variable = self.name()?;
        if is_sorted(variable) {
            Some(variable)
        } else {
            None
        }
    }

    // The exponent behind a variable.
    fn exponent(&mut self) -> Option<u32>
        requires { StopsAt is_number_byte self.old }
        ensures some { IfSome result (λ e. Begins exponents self.old e self.new) }
        ensures none { IsNone result → NoneBegins exponents self.old }
    {
        if self.literal(b"^").is_none() {
            return Some(1);
        }
        let exponent = self.small()?;
        if exponent < 2 || exponent > MAX_DEGREE || self.is_next(b'^') {
            return None;
        }
        Some(exponent)
    }

    /// A power of a variable, with `*` before it.
    pub fn power(&mut self) -> Option<(Var, u32)>
        ensures some { IfSome result (λ p. Begins single_powers self.old p self.new) }
        ensures none { IsNone result → NoneBegins single_powers self.old }
    {
        self.literal(b"*")?;
        let variable = self.variable()?;
        let exponent = self.exponent()?;
        Some((variable, exponent))
    }

    /// A coefficient with its sign.
    pub fn coefficient(&mut self) -> Option<i128>
        ensures some { IfSome result (λ z. Begins coefficients self.old z self.new) }
        ensures none { IsNone result → NoneBegins coefficients self.old }
    {
        if self.literal(b"+").is_some() {
            let number = self.integer()?;
            if number > 0 { Some(number) } else { None }
        } else {
            let number = self.integer()?;
            if number < 0 { Some(number) } else { None }
        }
    }
}

/// Whether a byte is a digit, `-`, `^` or `*`.
pub(crate) fn is_power_byte(byte: u8) -> bool
    ensures { result ≡ is_power_byte byte }
{
    byte == b'*' || byte == b'^' || is_number_byte(byte)
}

// How many digits and `-` stand at the beginning.
fn run_length(bytes: &[u8]) -> usize
    ensures run { result ≡ prefix_len is_number_byte bytes.now }
    ensures within { result ≤ length bytes.now }
{
    bytes
        .iter()
        .take_while(|byte| is_number_byte(**byte))
        .count()
}

// Whether decimal text is the one spelling of its number: no zero in front of other digits, and no
// `-` before 0.
#[tactic(auto, using(crate::proofs::Spelling::is_short, crate::proofs::Spelling::is_negative, crate::proofs::Spelling::is_plain))]
fn is_canonical(text: &[u8]) -> bool
    requires decimal { IsDecimal text.now }
    requires fits { decimal_size text.now < 2 ^ 127 }
    ensures { IsTrue result ↔ (integers.text (decimal_value text.now) ≡ text.now) }
{
    if text.len() < 2 {
        return true;
    }
    if text[0] == b'-' {
        return text[1] != b'0';
    }
    text[0] != b'0'
}

// Whether the points stand in their sorted order.
fn is_sorted(variable: Var) -> bool
    ensures { IsTrue result ↔ IsSorted variable }
{
    match variable {
        Var::R(a, b, c, d) => a.0 < b.0 && c.0 < d.0 && !(a.0 == c.0 && b.0 == d.0),
        Var::S(a, b, c) => a.0 < b.0 && b.0 < c.0,
        Var::P(a, b, c) => { a.0 <= c.0 && b.0 != a.0 && b.0 != c.0 && (a.0 != c.0 || a.0 < b.0) }
        Var::X(_) | Var::Y(_) | Var::T(_) => true,
    }
}
