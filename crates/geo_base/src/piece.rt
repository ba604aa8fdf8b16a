//! The bytes of one read, used from the front.
ghost use Rattle.std.specs.Prelude.{◌≡◌, ◌<◌, ◌≤◌, [], length, drop, take, IfOk, OnErr, OnOk};
ghost use Rattle.geo_base.specs.Devices.{HasRisen, Loses, MarksEnd};

use crate::reading::{Failed, Source};
use std::alloc::{AllocError, Global};
use std::marker::Model;

/// The most bytes of one read.
const SIZE: usize = 65_536;

/// The bytes of the last read that are not used up. Contracts see it as these bytes.
#[derive(Drop)]
pub struct Piece {
    bytes: Vec<u8>,
    start: usize,
    end: usize,
}

impl Model for Piece {
    ghost use Rattle.std.specs.Prelude.{◌≡◌, ◌≤◌, ℕ, List, slice_range, vec_len};

    ghost Value = { List ℕ };

    ghost view = { λ p. slice_range p.bytes.items p.start p.end };

    ghost invariant = { λ p. (p.start ≤ p.end) × (p.end ≤ vec_len p.bytes)
        × (vec_len p.bytes ≡ 65536) };
}

impl Piece {
    /// A piece with no bytes, and room for those of a read.
    pub fn new(alloc: Global) -> Result<Piece, AllocError>
        ensures { IfOk result (λ piece. piece ≡ []) }
    {
        Ok(Piece {
            bytes: vec![in alloc; 0; SIZE]?,
            start: 0,
            end: 0,
        })
    }

    /// The bytes.
    pub fn bytes(&self) -> &[u8]
        ensures { result.now ≡ self.now }
    {
        &self.bytes[self.start..self.end]
    }

    /// Uses up the first `count` bytes.
    pub fn skip(&mut self, count: usize)
        requires { count ≤ length self.old }
        ensures { self.new ≡ drop count self.old }
    {
        self.start += count;
    }

    /// Uses up all bytes.
    pub fn clear(&mut self)
        ensures { self.new ≡ [] }
    {
        self.start = 0;
        self.end = 0;
    }

    /// Reads at most `most` bytes in place of those that are here, and answers how many.
    pub fn refill<S: Source>(&mut self, source: &mut S, most: usize) -> Result<usize, Failed>
        requires { 0 < most }
        ensures taken { Loses (S.left source.old) self.new (S.left source.new) }
        ensures count { IfOk result (λ n. n ≡ length self.new) }
        ensures most { length self.new ≤ most }
        ensures end { IfOk result (λ n. MarksEnd n (S.left source.old)) }
        ensures none { OnErr result (self.new ≡ []) }
        ensures fault { OnErr result (HasRisen (S.faults source.old) (S.faults source.new)) }
        ensures sound { OnOk result (S.faults source.new ≡ S.faults source.old) }
        ensures faults { S.faults source.old ≤ S.faults source.new }
    {
        self.start = 0;
        self.end = 0;
        self.end = read_front(source, &mut self.bytes, most)?;
        Ok(self.end)
    }
}

/// Reads at most `most` bytes into the front of `bytes`, and answers how many.
fn read_front<S: Source>(source: &mut S, bytes: &mut [u8], most: usize) -> Result<usize, Failed>
    requires room { 0 < length bytes.old }
    requires some { 0 < most }
    ensures within { IfOk result (λ n. n ≤ length bytes.old) }
    ensures most { IfOk result (λ n. n ≤ most) }
    ensures taken { IfOk result (λ n.
        Loses (S.left source.old) (take n bytes.new) (S.left source.new)) }
    ensures end { IfOk result (λ n. MarksEnd n (S.left source.old)) }
    ensures kept { OnErr result (S.left source.new ≡ S.left source.old) }
    ensures fault { OnErr result (HasRisen (S.faults source.old) (S.faults source.new)) }
    ensures sound { OnOk result (S.faults source.new ≡ S.faults source.old) }
    ensures faults { S.faults source.old ≤ S.faults source.new }
{
    let wanted = most.min(bytes.len());
    source.read(&mut bytes[..wanted])
}
