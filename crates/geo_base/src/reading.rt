//! Sources of bytes, and reading one to its end.
ghost use Rattle.std.specs.Prelude.{◌≡◌, ◌+◌, ◌<◌, ◌≤◌, ℕ, List, Option, length, take, IfOk, OnOk};
ghost use Rattle.std.specs.Prelude.{OnErr, IsErrOf};
ghost use Rattle.geo_base.specs.Devices.{HasEnded, HasRisen, Loses, MarksEnd};

use std::alloc::{AllocError, Global};

/// A read failed, and gave nothing.
#[derive(Clone, Copy, Debug, PartialEq, Eq)]
pub struct Failed;

/// A source of bytes, read piece by piece.
pub trait Source {
    // The bytes still to come, or `None` where the source does not tell them.
    ghost left: { Self → Option (List ℕ) };

    // How many reads have failed.
    ghost faults: { Self → ℕ };

    /// Reads bytes into the front of `buf` and answers how many. For a nonempty `buf` an answer of
    /// 0
    /// is the end of the input.
    fn read(&mut self, buf: &mut [u8]) -> Result<usize, Failed>
        ensures within { IfOk result (λ n. n ≤ length buf.old) }
        ensures taken { IfOk result (λ n. Loses (left self.old) (take n buf.new) (left self.new)) }
        ensures end { 0 < length buf.old → IfOk result (λ n. MarksEnd n (left self.old)) }
        ensures kept { OnErr result (left self.new ≡ left self.old) }
        ensures fault { OnErr result (HasRisen (faults self.old) (faults self.new)) }
        ensures sound { OnOk result (faults self.new ≡ faults self.old) }
        ensures faults { faults self.old ≤ faults self.new };
}

/// Why reading gave nothing.
#[derive(Clone, Copy, Debug, PartialEq, Eq)]
pub enum ReadError {
    /// A read failed.
    ReadFault,
    /// The source gave more bytes than the limit.
    TooLong,
    /// Memory ran out.
    NoMemory,
}

impl From<Failed> for ReadError {
    ghost use Rattle.std.specs.Prelude.{◌≡◌};
    ghost use Rattle.geo_base.specs.declared.reading.ReadError.TheVariants.{ReadFault};

    ghost from_gives = { λ _ e. e ≡ ReadFault };

    fn from(_error: Failed) -> ReadError {
        ReadError::ReadFault
    }
}

impl From<AllocError> for ReadError {
    ghost use Rattle.std.specs.Prelude.{◌≡◌};
    ghost use Rattle.geo_base.specs.declared.reading.ReadError.TheVariants.{NoMemory};

    ghost from_gives = { λ _ e. e ≡ NoMemory };

    fn from(_error: AllocError) -> ReadError {
        ReadError::NoMemory
    }
}

/// The length of the buffer that `read_all` reads into.
const PIECE: usize = 4096;

/// All bytes up to the end of the source, where they are at most `limit`. It never asks for more
/// than one byte past the limit.
pub fn read_all<S: Source>(alloc: Global, source: &mut S, limit: u64) -> Result<Vec<u8>, ReadError>
    requires { limit ≤ 67108864 }
    ensures whole { IfOk result (λ v. Loses (S.left source.old) v.items (S.left source.new)) }
    ensures ended { OnOk result (HasEnded (S.left source.new)) }
    ensures short { IfOk result (λ v. length v.items ≤ limit) }
    ensures too_long { IsErrOf result ReadError.TooLong → ((taken : List ℕ)
        × (length taken ≡ limit + 1) × Loses (S.left source.old) taken (S.left source.new)) }
    ensures lost { OnErr result ((taken : List ℕ)
        × (length taken ≤ limit + 1) × Loses (S.left source.old) taken (S.left source.new)) }
    ensures fault { IsErrOf result ReadError.ReadFault
        → HasRisen (S.faults source.old) (S.faults source.new) }
    ensures heard { ¬ IsErrOf result ReadError.ReadFault
        → S.faults source.new ≡ S.faults source.old }
    ensures faults { S.faults source.old ≤ S.faults source.new }
{
    let most = limit as usize + 1;
    let mut piece = [0u8; PIECE];
    let mut bytes = Vec::new(alloc);
    while bytes.len() < most {
        let wanted = (most - bytes.len()).min(PIECE);
        let count = source.read(&mut piece[..wanted])?;
        if count == 0 {
            return Ok(bytes);
        }
        bytes.extend_from_slice(&piece[..count])?;
    }
    Err(ReadError::TooLong)
}
