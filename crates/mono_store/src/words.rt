//! Monomials as words of 64 bits: numbers in a mixed radix, whose digits are the exponents.

ghost use Rattle.std.specs.Prelude.{◌≡◌, ◌⊎◌, ◌↔◌, ◌+◌, ◌-◌, ◌/◌, ◌%◌, ◌^◌, ◌<◌, ◌≤◌, ◌∷◌, [], min};
ghost use Rattle.std.specs.Prelude.{IfNone, IfOk, IfSome, IsTrue, filter, length, ltb, map, sum};
ghost use Rattle.mono_store.specs.Monomials.{ComesFirst};
ghost use Rattle.mono_store.specs.Words.{count_from, digit_limits, digits_of, limit, powers_of_word};
ghost use Rattle.mono_store.specs.Words.{word, word_count};

use crate::memory::NoMemory;
use std::alloc::Global;
use std::marker::Model;

/// The greatest number of words, so that an index of a word or a link has 64 bits.
pub const MOST_WORDS: u64 = 1 << 63;

/// The greatest degree of a monomial.
const MOST_DEGREE: u32 = 65535;

/// So many digits are looked through from the first one on.
const FEW_DIGITS: usize = 8;

/// The digit in which the exponent of one variable stands.
#[derive(Clone, Copy, PartialEq, Eq)]
pub(crate) struct Digit {
    /// The greatest exponent that it has room for.
    pub limit: u32,
    /// What an exponent of 1 counts.
    pub unit: u64,
}

/// The first power of a word, and the word of the others.
#[derive(Clone, Copy)]
pub struct WordPower {
    /// The number of the variable.
    pub var: u64,
    /// Its exponent.
    pub exp: u32,
    /// The word of the rest.
    pub rest: u64,
}

/// The digits of the variables, by their numbers: the first variable has the highest.
pub struct Digits {
    digits: Vec<Digit>,
    /// How many words there are.
    words: u64,
    /// For each number of leading zeros the first place whose unit has no fewer: the first digit of
    /// a word that has as many is not before it.
    starts: Vec<u64>,
}

/// By hand, so that a caller's proof sees one call where they are let go.
impl Drop for Digits {
    fn drop(self) {
        let Digits {
            digits: _,
            words: _,
            starts: _,
        } = self;
    }
}

impl Model for Digits {
    ghost use Rattle.mono_store.specs.Words.{AreDigits, Limits, digit_limits};

    ghost Value = { Limits };

    ghost view = { λ d. digit_limits d.digits.items };

    ghost invariant = { λ d. AreDigits d.digits.items d.words };
}

impl Digits {
    /// Digits that have room for these exponents, and `None` where there are too many words, or
    /// one would have too great a degree.
    pub fn new(alloc: Global, limits: &[u32]) -> Result<Option<Digits>, NoMemory>
        ensures digits { IfOk result (λ found. IfSome found (λ d. d ≡ limits.now)) }
        ensures fits { IfOk result (λ found. IfSome found
            (λ _. (word_count limits.now ≤ 2 ^ 63) × (sum limits.now ≤ 65535))) }
        ensures none { IfOk result (λ found. IfNone found
            ((2 ^ 63 < word_count limits.now) ⊎ (65535 < sum limits.now))) }
    {
        let Some(words) = count_words(limits) else {
            return Ok(None);
        };
        if words > MOST_WORDS || degree(limits) > MOST_DEGREE {
            return Ok(None);
        }
        let digits = digits_below(alloc, limits, words)?;
        let starts = starts_of(alloc, digits.as_slice())?;
        Ok(Some(Digits {
            digits,
            words,
            starts,
        }))
    }

    /// The digits of no variable: the one word is that of the monomial with no variable.
    pub fn none(alloc: Global) -> Digits
        ensures { result ≡ [] }
    {
        Digits {
            digits: Vec::new(alloc),
            words: 1,
            starts: Vec::new(alloc),
        }
    }

    /// The same digits.
    pub fn copy(&self, alloc: Global) -> Result<Digits, NoMemory>
        ensures { IfOk result (λ digits. digits ≡ self.now) }
    {
        Ok(Digits {
            digits: Vec::from_slice(alloc, self.digits.as_slice())?,
            words: self.words,
            starts: Vec::from_slice(alloc, self.starts.as_slice())?,
        })
    }

    /// Which variables have digits with room for an exponent.
    pub fn with_room(&self, alloc: Global) -> Result<Vec<bool>, NoMemory>
        ensures { IfOk result (λ known. known.items ≡ map (ltb 0) self.now) }
    {
        have_room(alloc, self.digits.as_slice())
    }

    /// The digits without those that have no room, which are 0 in every word: a word is the same in both.
    pub fn without_empty(&self, alloc: Global) -> Result<Digits, NoMemory>
        ensures { IfOk result (λ digits. digits ≡ filter (ltb 0) self.now) }
    {
        let digits = digits_with_room(alloc, self.digits.as_slice())?;
        let starts = starts_of(alloc, digits.as_slice())?;
        Ok(Digits {
            digits,
            words: self.words,
            starts,
        })
    }

    /// Whether both are the same digits.
    pub(crate) fn same(&self, other: &Digits) -> bool
        ensures { IsTrue result → self.now ≡ other.now }
    {
        self.digits == other.digits
    }

    /// How many variables have digits.
    pub fn count(&self) -> usize
        ensures count { result ≡ length self.now }
        ensures words { word_count self.now ≤ 2 ^ 63 }
    {
        self.digits.len()
    }

    /// The limit of each variable.
    pub fn limits(&self, alloc: Global) -> Result<Vec<u32>, NoMemory>
        ensures { IfOk result (λ limits. limits.items ≡ self.now) }
    {
        limits_of(alloc, self.digits.as_slice())
    }

    /// How many words there are.
    pub fn words(&self) -> u64
        ensures count { result ≡ word_count self.now }
        ensures few { word_count self.now ≤ 2 ^ 63 }
        ensures degree { sum self.now ≤ 65535 }
    {
        self.words
    }

    /// The digit of a variable.
    fn digit(&self, var: u64) -> Digit
        requires { var < length self.now }
        ensures limit { result.limit ≡ limit self.now var }
        ensures unit { result.unit ≡ count_from self.now (var + 1) }
        ensures words { word_count self.now ≤ 2 ^ 63 }
    {
        self.digits[var as usize]
    }

    /// The word of one power.
    pub fn power(&self, var: u64, exp: u32) -> u64
        requires known { var < length self.now }
        requires fits { exp ≤ limit self.now var }
        ensures word { result ≡ word self.now ((var, exp) ∷ []) }
        ensures words { word_count self.now ≤ 2 ^ 63 }
    {
        exp as u64 * self.digit(var).unit
    }

    /// Whether the exponent has room in the digit of its variable.
    pub fn has_room(&self, var: u64, exp: u32) -> bool
        ensures { IsTrue result ↔ (exp ≤ limit self.now var) }
    {
        exp == 0 || (var < self.count() as u64 && exp <= self.digit(var).limit)
    }

    /// The word that has the power before those of another, where its digit has room.
    pub(crate) fn word_before(&self, var: u64, exp: u32, next: u64) -> Option<u64>
        requires exponent { 1 ≤ exp }
        requires first { next < word_count self.now → ComesFirst var (powers_of_word self.now next) }
        ensures within { IfSome result (λ w. w < word_count self.now) }
        ensures powers { IfSome result
            (λ w. powers_of_word self.now w ≡ (var, exp) ∷ powers_of_word self.now next) }
        ensures next { IfSome result (λ _. next < word_count self.now) }
        ensures none { IfNone result (next < word_count self.now → limit self.now var < exp) }
    {
        if next < self.words() && self.has_room(var, exp) {
            return Some(next + self.power(var, exp));
        }
        None
    }

    /// Whether the digit before a place counts more than the word.
    fn is_above(&self, place: u64, word: u64) -> bool
        ensures { IsTrue result → word < count_from self.now place }
    {
        0 < place && place <= self.count() as u64 && word < self.digit(place - 1).unit
    }

    /// A place that the first digit of the word is not before, and mostly its own.
    fn start(&self, word: u64) -> u64
        requires { word < word_count self.now }
        ensures { word < count_from self.now result }
    {
        match self.starts.get(word.leading_zeros() as usize) {
            Some(start) if self.is_above(*start, word) => *start,
            _ => 0,
        }
    }

    /// The number of the first variable in a word that is not 0.
    fn first_var(&self, word: u64) -> u64
        requires some { 0 < word }
        requires within { word < word_count self.now }
        ensures known { result < length self.now }
        ensures above { word < count_from self.now result }
        ensures here { count_from self.now (result + 1) ≤ word }
    {
        let _count = self.count();
        let mut var = self.start(word);
        while word < self.digit(var).unit {
            var += 1;
        }
        var
    }

    /// The first power of a word that is not 0.
    pub fn first_power(&self, word: u64) -> WordPower
        requires some { 0 < word }
        requires within { word < word_count self.now }
        ensures powers { powers_of_word self.now word
            ≡ (result.var, result.exp) ∷ powers_of_word self.now result.rest }
        ensures rest { result.rest < word }
    {
        let var = self.first_var(word);
        let (exp, rest) = divided(word, self.digit(var).unit);
        WordPower {
            var,
            exp: exp as u32,
            rest,
        }
    }
}

/// Which digits have room for an exponent.
fn have_room(alloc: Global, digits: &[Digit]) -> Result<Vec<bool>, NoMemory>
    ensures { IfOk result (λ known. known.items ≡ map (λ d. ltb 0 d.limit) digits.now) }
{
    let mut known = Vec::with_capacity(alloc, digits.len())?;
    for digit in digits {
        known.push(0 < digit.limit)?;
    }
    Ok(known)
}

/// The limits of digits.
fn limits_of(alloc: Global, digits: &[Digit]) -> Result<Vec<u32>, NoMemory>
    ensures { IfOk result (λ limits. limits.items ≡ digit_limits digits.now) }
{
    let mut limits = Vec::with_capacity(alloc, digits.len())?;
    for digit in digits {
        limits.push(digit.limit)?;
    }
    Ok(limits)
}

/// The digits that have room for an exponent.
fn digits_with_room(alloc: Global, digits: &[Digit]) -> Result<Vec<Digit>, NoMemory>
    ensures { IfOk result (λ kept. kept.items ≡ filter (λ d. ltb 0 d.limit) digits.now) }
{
    let mut kept = Vec::with_capacity(alloc, digits.len())?;
    for digit in digits {
        if 0 < digit.limit {
            kept.push(*digit)?;
        }
    }
    Ok(kept)
}

/// How often the unit goes into the word, and what is left. It is mostly once or twice, and then
/// nothing is divided.
fn divided(word: u64, unit: u64) -> (u64, u64)
    requires some { 0 < unit }
    requires once { unit ≤ word }
    ensures times { result.0 ≡ word / unit }
    ensures rest { result.1 ≡ word % unit }
{
    let rest = word - unit;
    if rest < unit {
        return (1, rest);
    }
    if rest - unit < unit {
        return (2, rest - unit);
    }
    (word / unit, word % unit)
}

/// How many words there are within the limits, where they are so few that each has 64 bits.
fn count_words(limits: &[u32]) -> Option<u64>
    ensures count { IfSome result (λ count. count ≡ word_count limits.now) }
    ensures none { IfNone result (2 ^ 64 ≤ word_count limits.now) }
{
    let mut count = 1u64;
    for limit in limits {
        match count.checked_mul(*limit as u64 + 1) {
            Some(more) => count = more,
            None => return None,
        }
    }
    Some(count)
}

/// The greatest degree within the limits, capped.
fn degree(limits: &[u32]) -> u32
    ensures { result ≡ min (sum limits.now) (2 ^ 32 - 1) }
{
    let mut degree = 0u32;
    for limit in limits {
        degree = degree.saturating_add(*limit);
    }
    degree
}

/// The digits of these limits, where so many words are within them.
fn digits_below(alloc: Global, limits: &[u32], count: u64) -> Result<Vec<Digit>, NoMemory>
    requires { count ≡ word_count limits.now }
    ensures { IfOk result (λ digits. digits.items ≡ digits_of limits.now) }
{
    let mut digits = Vec::with_capacity(alloc, limits.len())?;
    let mut unit = count;
    for limit in limits {
        unit /= *limit as u64 + 1;
        digits.push(Digit {
            limit: *limit,
            unit,
        })?;
    }
    Ok(digits)
}

/// For each number of leading zeros the first place whose unit has no fewer; nothing where the digits are so few
/// that they are quickly looked through.
fn starts_of(alloc: Global, digits: &[Digit]) -> Result<Vec<u64>, NoMemory> {
    if digits.len() <= FEW_DIGITS {
        return Ok(Vec::new(alloc));
    }
    let mut starts = Vec::with_capacity(alloc, 65)?;
    let mut place = 0;
    for zeros in 0..65u32 {
        place += first_with(&digits[place..], zeros);
        starts.push(place as u64)?;
    }
    Ok(starts)
}

/// The first place whose unit has so many leading zeros or more.
fn first_with(digits: &[Digit], zeros: u32) -> usize
    ensures { result ≤ length digits.now }
{
    digits
        .iter()
        .position(|digit| digit.unit.leading_zeros() >= zeros)
        .unwrap_or(digits.len())
}
