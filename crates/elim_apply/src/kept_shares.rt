//! The shares of words that were reckoned before, for those that share powers with them.

ghost use Rattle.std.specs.Prelude.{◌≡◌, ◌+◌, ◌-◌, ◌<◌, ◌≤◌, List, Option};
ghost use Rattle.std.specs.Prelude.{IfOk, IfSome, IsTrue};
ghost use Rattle.elim_apply.specs.declared.numbered.NumberedRow.{NumberedRow};
ghost use Rattle.elim_apply.specs.Inner.KeptShares.{AreKept, IsHead, IsTail, word_share};
ghost use Rattle.mono_store.specs.Words.{Limits, word_count};

use crate::numbered::NumberedRow;
use crate::small_shares::{SmallShare, share_with};
use geo_points::NoMemory;
use mono_store::Digits;
use std::alloc::Global;

/// The most words whose shares are kept.
const MOST_TAILS: usize = 4096;

/// An odd number by which words are spread over the places.
const SPREAD: u64 = 0x9E37_79B9_7F4A_7C15;

/// The first powers of some words. Each is the word of these powers alone and, added to it, the
/// word of its other powers.
#[derive(Clone, Copy)]
pub(crate) struct Head {
    /// The word of these powers alone.
    pub word: u64,
    /// The greatest word that the other powers may have.
    pub room: u64,
    /// Their share.
    pub share: SmallShare,
}

impl Head {
    /// Whether the word is one of these.
    fn begins(&self, word: u64) -> bool
        ensures { IsTrue result → (self.now.word ≤ word) × (word - self.now.word ≤ self.now.room) }
    {
        self.word <= word && word - self.word <= self.room
    }
}

/// A word and its share.
#[derive(Clone, Copy)]
pub(crate) struct Tail {
    pub word: u64,
    pub share: SmallShare,
}

/// Terms come from the greatest word down: a word begins mostly as the one before it, and ends as
/// one of the earlier.
pub(crate) struct KeptShares {
    /// The first powers of the last word that had new ones.
    pub head: Head,
    /// The shares of words of last powers, each at the place that its word tells.
    pub tails: Vec<Tail>,
    /// The last powers have no greater word.
    pub most: u64,
}

/// By hand, so that a caller's proof sees one call where they are let go.
impl Drop for KeptShares {
    fn drop(self) {
        let KeptShares {
            head: _,
            tails: _,
            most: _,
        } = self;
    }
}

impl KeptShares {
    /// No share but that of the word 0, and places for those of so many terms. The last powers take
    /// half of the bits of the greatest word.
    pub(crate) fn new(alloc: Global, terms: usize, greatest: u64) -> Result<KeptShares, NoMemory>
        ensures { (known : List (Option NumberedRow)) (limits : Limits) → IfOk result
            (λ kept. AreKept known limits kept) }
    {
        let share = SmallShare::of_one();
        let mut tails = Vec::new(alloc);
        tails.resize(terms.min(MOST_TAILS), Tail { word: 0, share })?;
        let head = Head {
            word: 0,
            room: 0,
            share,
        };
        let most = 1 << ((64 - greatest.leading_zeros()) / 2);
        Ok(KeptShares { head, tails, most })
    }

    /// The share of a word, where it is small.
    pub(crate) fn share_of(
        &mut self,
        digits: &Digits,
        known: &[Option<NumberedRow>],
        word: u64,
    ) -> Option<SmallShare>
        requires kept { AreKept known.now digits.now self.old }
        requires word { word < word_count digits.now }
        ensures share { IfSome result (λ s. s ≡ word_share known.now digits.now word) }
        ensures kept { AreKept known.now digits.now self.new }
    {
        let head = self.head_of(digits, known, word)?;
        let tail = self.tail_of(digits, known, word - head.word)?;
        head.share.joined(&tail)
    }

    /// First powers of the word, with their share.
    fn head_of(&mut self, digits: &Digits, known: &[Option<NumberedRow>], word: u64) -> Option<Head>
        requires kept { AreKept known.now digits.now self.old }
        requires word { word < word_count digits.now }
        ensures head { IfSome result (λ h. IsHead known.now digits.now h) }
        ensures up { IfSome result (λ h. h.word ≤ word) }
        ensures near { IfSome result (λ h. word - h.word ≤ h.room) }
        ensures kept { AreKept known.now digits.now self.new }
    {
        if !self.head.begins(word) {
            self.head = head_of_word(digits, known, word, self.most)?;
        }
        Some(self.head)
    }

    /// The share of a word of last powers.
    fn tail_of(
        &mut self,
        digits: &Digits,
        known: &[Option<NumberedRow>],
        word: u64,
    ) -> Option<SmallShare>
        requires kept { AreKept known.now digits.now self.old }
        requires word { word < word_count digits.now }
        ensures share { IfSome result (λ s. s ≡ word_share known.now digits.now word) }
        ensures kept { AreKept known.now digits.now self.new }
    {
        if let Some(share) = self.tail_at(word) {
            return Some(share);
        }
        let share = head_of_word(digits, known, word, 0)?.share;
        self.keep_tail(Tail { word, share });
        Some(share)
    }

    /// The kept share of a word, if it is.
    fn tail_at(&self, word: u64) -> Option<SmallShare>
        ensures { (known : List (Option NumberedRow)) (limits : Limits) → AreKept known limits self.now
            → IfSome result (λ s. s ≡ word_share known limits word) }
    {
        match self.tails.get(self.place(word)) {
            Some(tail) if tail.word == word => Some(tail.share),
            _ => None,
        }
    }

    /// The place for the share of a word.
    fn place(&self, word: u64) -> usize {
        let spread = word.wrapping_mul(SPREAD) >> 32;
        (spread.wrapping_mul(self.tails.len() as u64) >> 32) as usize
    }

    /// Keeps the share of a word in the place of another.
    fn keep_tail(&mut self, tail: Tail)
        ensures { (known : List (Option NumberedRow)) (limits : Limits)
            → AreKept known limits self.old → IsTail known limits tail → AreKept known limits self.new }
    {
        let place = self.place(tail.word);
        if place < self.tails.len() {
            self.tails[place] = tail;
        }
    }
}

/// The first powers of a word, up to where the word of the others is at most `most`.
fn head_of_word(
    digits: &Digits,
    known: &[Option<NumberedRow>],
    word: u64,
    most: u64,
) -> Option<Head>
    requires { word < word_count digits.now }
    ensures head { IfSome result (λ h. IsHead known.now digits.now h) }
    ensures whole { IfSome result (λ h. h.word + h.room ≡ word) }
    ensures room { IfSome result (λ h. h.room ≤ most) }
{
    let mut share = SmallShare::of_one();
    let mut rest = word;
    while rest > most {
        let first = digits.first_power(rest);
        share = share_with(share, known, first.var, first.exp)?;
        rest = first.rest;
    }
    Some(Head {
        word: word - rest,
        room: rest,
        share,
    })
}
