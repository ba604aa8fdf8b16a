//! The texts of words that were written before, for those that share powers with them.

ghost use Rattle.std.specs.Prelude.{◌≡◌, ◌+◌, ◌-◌, ◌<◌, ◌≤◌, ◌++◌, ℕ, List};
ghost use Rattle.std.specs.Prelude.{IfNone, IfOk, IfSome, IsTrue, OnOk, drop, length, take};
ghost use Rattle.mono_store.specs.Words.{Limits, word_count};
ghost use Rattle.proof_log.specs.Inner.KeptTexts.{AreKept, BeginWith, IsBegun, IsHead, IsSpan, numbered_text, word_text};

use crate::number_texts::push_exponent;
use geo_base::Text;
use geo_points::NoMemory;
use mono_store::Digits;
use std::alloc::Global;

/// The most words whose texts are kept.
const MOST_TAILS: u64 = 4096;

/// A part of the bytes.
#[derive(Clone, Copy)]
pub(crate) struct Span {
    pub start: usize,
    pub end: usize,
}

/// The first powers of some words. Each is the word of these powers alone and, added to it, the
/// word of its other powers.
#[derive(Clone, Copy)]
pub(crate) struct Head {
    /// The word of these powers alone.
    pub word: u64,
    /// The greatest word that the other powers may have.
    pub room: u64,
    /// Their text.
    pub text: Span,
}

impl Head {
    /// Whether the word is one of these.
    fn begins(&self, word: u64) -> bool
        ensures { IsTrue result → (self.now.word ≤ word) × (word - self.now.word ≤ self.now.room) }
    {
        self.word <= word && word - self.word <= self.room
    }
}

/// A word and its text.
#[derive(Clone, Copy)]
pub(crate) struct Tail {
    pub word: u64,
    pub text: Span,
}

/// Texts of first powers and of whole words. Terms are written from the greatest word down: a word
/// begins mostly as the one before it, and ends as one of the earlier.
pub(crate) struct KeptTexts {
    /// The texts, one behind the other.
    pub bytes: Vec<u8>,
    /// Those of first powers: those of the last word that had new ones, each longer than the one
    /// before.
    pub heads: Vec<Head>,
    /// Those of words, each at the place that its word tells.
    pub tails: Vec<Tail>,
}

/// By hand, so that a caller's proof sees one call where they are let go.
impl Drop for KeptTexts {
    fn drop(self) {
        let KeptTexts {
            bytes: _,
            heads: _,
            tails: _,
        } = self;
    }
}

impl KeptTexts {
    /// No text but that of the word 0, and places for those of so many terms.
    pub(crate) fn new(alloc: Global, terms: u64) -> Result<KeptTexts, NoMemory>
        ensures { (names : List (List ℕ)) (limits : Limits) → IfOk result
            (λ kept. AreKept names limits kept) }
    {
        let mut tails = Vec::new(alloc);
        let none = Tail {
            word: 0,
            text: Span { start: 0, end: 0 },
        };
        tails.resize(places_for(terms) as usize, none)?;
        Ok(KeptTexts {
            bytes: Vec::new(alloc),
            heads: Vec::new(alloc),
            tails,
        })
    }

    /// Appends the powers of a word.
    pub(crate) fn push_word(
        &mut self,
        alloc: Global,
        out: &mut Vec<u8>,
        digits: &Digits,
        names: &[Text],
        word: u64,
    ) -> Result<(), NoMemory>
        requires kept { AreKept names.now digits.now self.old }
        requires names { length digits.now ≤ length names.now }
        requires word { word < word_count digits.now }
        ensures text { OnOk result (out.new.items
            ≡ out.old.items ++ word_text names.now digits.now word) }
        ensures kept { OnOk result (AreKept names.now digits.now self.new) }
    {
        let begin = out.len();
        let head = self.head_of(word);
        out.extend_from_slice(self.text(head.text))?;
        let rest = word - head.word;
        if let Some(span) = self.tail_of(rest) {
            out.extend_from_slice(self.text(span))?;
            return Ok(());
        }
        let behind = out.len();
        self.push_powers(alloc, out, digits, names, word, rest, begin)?;
        self.keep_tail(rest, out, behind)
    }

    /// The longest of the heads with which the word begins. Those that are longer go.
    fn head_of(&mut self, word: u64) -> Head
        ensures up { result.word ≤ word }
        ensures near { word - result.word ≤ result.room }
        ensures kept { (names : List (List ℕ)) (limits : Limits) → AreKept names limits self.old
            → AreKept names limits self.new × IsHead names limits self.new.bytes.items result }
    {
        leave_others(&mut self.heads, word);
        match self.heads.last() {
            Some(head) if head.begins(word) => *head,
            _ => Head {
                word: 0,
                room: u64::MAX,
                text: Span { start: 0, end: 0 },
            },
        }
    }

    /// Appends the rest of the powers of a word one by one, and those at the end that are kept.
    fn push_powers(
        &mut self,
        alloc: Global,
        out: &mut Vec<u8>,
        digits: &Digits,
        names: &[Text],
        word: u64,
        first: u64,
        begin: usize,
    ) -> Result<(), NoMemory>
        requires kept { AreKept names.now digits.now self.old }
        requires names { length digits.now ≤ length names.now }
        requires word { word < word_count digits.now }
        requires begin { begin ≤ length out.old.items }
        requires begun { IsBegun names.now digits.now (take begin out.old.items) out.old.items word first }
        ensures text { OnOk result (out.new.items
            ≡ take begin out.old.items ++ word_text names.now digits.now word) }
        ensures kept { OnOk result (AreKept names.now digits.now self.new) }
    {
        let mut rest = first;
        loop {
            if let Some(span) = self.tail_of(rest) {
                out.extend_from_slice(self.text(span))?;
                return Ok(());
            }
            let power = digits.first_power(rest);
            push_numbered(alloc, out, names, power.var, power.exp)?;
            rest = power.rest;
            self.keep_head(word - rest, rest, &out[begin..])?;
        }
    }

    /// The kept text of a word, if it is.
    fn tail_of(&self, word: u64) -> Option<Span>
        ensures none { IfNone result (0 < word) }
        ensures kept { (names : List (List ℕ)) (limits : Limits) → AreKept names limits self.now
            → IfSome result (λ s. IsSpan self.now.bytes.items s (word_text names limits word)) }
    {
        if word == 0 {
            return Some(Span { start: 0, end: 0 });
        }
        match self.tails.get(self.place(word)) {
            Some(tail) if tail.word == word => Some(tail.text),
            _ => None,
        }
    }

    /// The place for the text of a word.
    fn place(&self, word: u64) -> usize {
        word as usize & self.tails.len().wrapping_sub(1)
    }

    /// A kept text.
    fn text(&self, span: Span) -> &[u8]
        requires ordered { span.start ≤ span.end }
        requires within { span.end ≤ length self.now.bytes.items }
        ensures { (text : List ℕ) → IsSpan self.now.bytes.items span text → result.now ≡ text }
    {
        &self.bytes[span.start..span.end]
    }

    /// Keeps the text of the first powers of words.
    fn keep_head(&mut self, word: u64, room: u64, text: &[u8]) -> Result<(), NoMemory>
        ensures { (names : List (List ℕ)) (limits : Limits) → AreKept names limits self.old
            → BeginWith names limits text.now word room → OnOk result (AreKept names limits self.new) }
    {
        let text = self.keep(text)?;
        self.heads.push(Head { word, room, text })?;
        Ok(())
    }

    /// Keeps the text of a word, which begins at a place.
    fn keep_tail(&mut self, word: u64, out: &[u8], start: usize) -> Result<(), NoMemory>
        requires { start ≤ length out.now }
        ensures { (names : List (List ℕ)) (limits : Limits) → AreKept names limits self.old
            → drop start out.now ≡ word_text names limits word → OnOk result (AreKept names limits self.new) }
    {
        let place = self.place(word);
        if place >= self.tails.len() {
            return Ok(());
        }
        let text = self.keep(&out[start..])?;
        self.tails[place] = Tail { word, text };
        Ok(())
    }

    /// Keeps a text.
    fn keep(&mut self, text: &[u8]) -> Result<Span, NoMemory>
        ensures span { IfOk result (λ s. IsSpan self.new.bytes.items s text.now) }
        ensures kept { (names : List (List ℕ)) (limits : Limits) → AreKept names limits self.old
            → OnOk result (AreKept names limits self.new) }
        ensures tails { self.new.tails.items ≡ self.old.tails.items }
    {
        let start = self.bytes.len();
        self.bytes.extend_from_slice(text)?;
        Ok(Span {
            start,
            end: self.bytes.len(),
        })
    }
}

/// Lets the last heads go, up to one with which the word begins.
fn leave_others(heads: &mut Vec<Head>, word: u64)
    ensures { heads.new.items ≡ take (length heads.new.items) heads.old.items }
{
    while is_past(heads, word) {
        let _other = heads.pop();
    }
}

/// Whether the word does not begin with the last head.
fn is_past(heads: &[Head], word: u64) -> bool
    ensures { IsTrue result → 0 < length heads.now }
{
    match heads.last() {
        Some(head) => !head.begins(word),
        None => false,
    }
}

/// Appends a power, by the number of its variable.
fn push_numbered(
    alloc: Global,
    out: &mut Vec<u8>,
    names: &[Text],
    var: u64,
    exponent: u32,
) -> Result<(), NoMemory>
    requires { var < length names.now }
    ensures { OnOk result (out.new.items ≡ out.old.items ++ numbered_text names.now (var, exponent)) }
{
    let name = &names[var as usize];
    out.extend_from_slice(&name.bytes)?;
    push_exponent(alloc, out, exponent)
}

/// How many places there are for the texts of so many terms: none for few, and else a power of two.
fn places_for(terms: u64) -> u64 {
    if terms < 16 {
        return 0;
    }
    let mut places = 16;
    while places < terms && places < MOST_TAILS {
        places *= 2;
    }
    places
}
