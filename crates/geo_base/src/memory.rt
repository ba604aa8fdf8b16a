//! A source and a sink in memory whose calls fail where a test wants them to.
ghost use Rattle.std.specs.Prelude.{◌≡◌, ◌<◌, ◌≤◌, ◌++◌, ◌↔◌, [], length, min, take, Contains};
ghost use Rattle.std.specs.Prelude.{IfOk, IsErr, OnErr, OnOk, Some};
ghost use Rattle.std.specs.Prelude.{IsErrOf};
ghost use Rattle.geo_base.specs.Devices.{Grows, HasRisen, Loses, MarksEnd, count_up};

use crate::reading::{Failed, Source};
use crate::writing::{PutError, Sink};
use std::alloc::Global;
use std::marker::Model;

/// A source of given bytes, which gives at most `piece` of them a call. Calls are counted from 1,
/// and those whose numbers are listed fail.
#[derive(Drop)]
pub struct MemSource {
    bytes: Vec<u8>,
    at: usize,
    piece: usize,
    fails: Vec<u64>,
    calls: u64,
    faults: u64,
}

impl Model for MemSource {
    ghost use Rattle.std.specs.Prelude.{◌<◌, ◌≤◌, drop, vec_len};
    ghost use Rattle.geo_base.specs.Memory.{MemoryLeft};

    ghost Value = { MemoryLeft };

    ghost view = { λ s. record {
      left = drop s.at s.bytes.items;
      piece = s.piece;
      fails = s.fails.items;
      calls = s.calls;
      faults = s.faults;
    } };

    ghost invariant = { λ s. (s.at ≤ vec_len s.bytes) × (0 < s.piece) };
}

impl MemSource {
    /// A source of `bytes`, in pieces of at most `piece`, whose calls numbered in `fails` fail.
    pub fn new(_alloc: Global, bytes: Vec<u8>, piece: usize, fails: Vec<u64>) -> MemSource
        requires { 0 < piece }
        ensures { result ≡ record {
          left = bytes.items;
          piece = piece;
          fails = fails.items;
          calls = 0;
          faults = 0;
        } }
    {
        MemSource {
            bytes,
            at: 0,
            piece,
            fails,
            calls: 0,
            faults: 0,
        }
    }
}

impl Source for MemSource {
    ghost left = { λ s. Some s.left };

    ghost faults = { λ s. s.faults };

    fn read(&mut self, buf: &mut [u8]) -> Result<usize, Failed>
        ensures within { IfOk result (λ n. n ≤ length buf.old) }
        ensures taken { IfOk result (λ n. self.old.left ≡ take n buf.new ++ self.new.left) }
        ensures end { 0 < length buf.old → IfOk result (λ n. (n ≡ 0) ↔ (self.old.left ≡ [])) }
        ensures kept { OnErr result (self.new.left ≡ self.old.left) }
        ensures fault { OnErr result (HasRisen self.old.faults self.new.faults) }
        ensures sound { OnOk result (self.new.faults ≡ self.old.faults) }
        ensures faults { self.old.faults ≤ self.new.faults }
        ensures count { IfOk result (λ n.
            n ≡ min (min (length self.old.left) (length buf.old)) self.old.piece) }
        ensures listed { IsErr result ↔ Contains self.old.fails (count_up self.old.calls) }
        ensures ok { OnOk result (self.new
            ≡ record self.old { left = self.new.left; calls = count_up self.old.calls }) }
        ensures err { OnErr result (self.new ≡ record self.old {
          calls = count_up self.old.calls;
          faults = count_up self.old.faults;
        }) }
    {
        self.calls = self.calls.saturating_add(1);
        if self.fails.contains(&self.calls) {
            self.faults = self.faults.saturating_add(1);
            return Err(Failed);
        }
        let rest = &self.bytes[self.at..];
        let count = rest.len().min(buf.len()).min(self.piece);
        buf[..count].copy_from_slice(&rest[..count]);
        self.at += count;
        Ok(count)
    }
}

/// A sink that keeps the bytes. Calls are counted from 1, and those whose numbers are listed fail.
#[derive(Drop)]
pub struct MemSink {
    bytes: Vec<u8>,
    fails: Vec<u64>,
    calls: u64,
    faults: u64,
}

impl Model for MemSink {
    ghost use Rattle.geo_base.specs.Memory.{MemoryHeld};

    ghost Value = { MemoryHeld };

    ghost view = { λ s. record {
      held = s.bytes.items;
      fails = s.fails.items;
      calls = s.calls;
      faults = s.faults;
    } };
}

impl MemSink {
    /// An empty sink whose calls numbered in `fails` fail.
    pub fn new(alloc: Global, fails: Vec<u64>) -> MemSink
        ensures { result ≡ record {
          held = [];
          fails = fails.items;
          calls = 0;
          faults = 0;
        } }
    {
        MemSink {
            bytes: Vec::new(alloc),
            fails,
            calls: 0,
            faults: 0,
        }
    }

    /// The bytes taken so far.
    pub fn bytes(&self) -> &[u8]
        ensures { result.now ≡ self.now.held }
    {
        self.bytes.as_slice()
    }
}

impl Sink for MemSink {
    ghost held = { λ s. Some s.held };

    ghost faults = { λ s. s.faults };

    fn write(&mut self, buf: &[u8]) -> Result<usize, PutError>
        ensures whole { IfOk result (λ n. n ≡ length buf.now) }
        ensures grown { OnOk result (self.new.held ≡ self.old.held ++ buf.now) }
        ensures kept { OnErr result (self.new.held ≡ self.old.held) }
        ensures fault { IsErrOf result PutError.Failed
            → HasRisen self.old.faults self.new.faults }
        ensures sound { OnOk result (self.new.faults ≡ self.old.faults) }
        ensures starved { IsErrOf result PutError.NoMemory
            → self.new.faults ≡ self.old.faults }
        ensures faults { self.old.faults ≤ self.new.faults }
        ensures listed { IsErrOf result PutError.Failed
            ↔ Contains self.old.fails (count_up self.old.calls) }
        ensures ok { OnOk result (self.new ≡ record self.old {
          held = self.old.held ++ buf.now;
          calls = count_up self.old.calls;
        }) }
        ensures failed { IsErrOf result PutError.Failed → self.new ≡ record self.old {
          calls = count_up self.old.calls;
          faults = count_up self.old.faults;
        } }
        ensures no_memory { IsErrOf result PutError.NoMemory
            → self.new ≡ record self.old { calls = count_up self.old.calls } }
    {
        self.calls = self.calls.saturating_add(1);
        if self.fails.contains(&self.calls) {
            self.faults = self.faults.saturating_add(1);
            return Err(PutError::Failed);
        }
        self.bytes.extend_from_slice(buf)?;
        Ok(buf.len())
    }
}
