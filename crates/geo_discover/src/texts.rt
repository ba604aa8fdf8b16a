//! Texts that are written, and how long they may get.

ghost use Rattle.std.specs.Prelude.{◌≡◌, ◌==◌, ◌+◌, ◌^◌, ◌<◌, ◌≤◌, IfErr, IfOk, IfSome, IsErrOf, OnOk, length};
ghost use Rattle.std.specs.List.{position};
ghost use Rattle.geo_base.specs.Devices.{Grows};
ghost use Rattle.geo_discover.specs.Inner.Puts.{IsTextCut};

use crate::errors::DiscoverError;
use geo_base::{PutError, Sink, write_all};

/// The most bytes of the text of a search.
const TEXT_LIMIT: u64 = 67_108_864;

/// How many bytes there are with a line more, within the limit.
pub(crate) fn bytes_with(bytes: u64, line: &[u8]) -> Result<u64, DiscoverError>
    requires { bytes ≤ 67108864 }
    ensures sum { IfOk result (λ n. n ≡ bytes + length line.now) }
    ensures fits { IfOk result (λ n. n ≤ 67108864) }
    ensures err { IfErr result (λ e. e ≡ DiscoverError.TooLong
        × 67108864 < bytes + length line.now) }
{
    let count = line.len() as u64;
    if count > TEXT_LIMIT - bytes {
        return Err(DiscoverError::TooLong);
    }
    Ok(bytes + count)
}

/// The sum of two lengths, where it is within the limit.
pub(crate) fn sum_within(a: u64, b: u64) -> Option<u64>
    ensures sum { IfSome result (λ n. n ≡ a + b) }
    ensures fits { IfSome result (λ n. n ≤ 67108864) }
{
    if a > TEXT_LIMIT || b > TEXT_LIMIT - a {
        return None;
    }
    Some(a + b)
}

/// Writes a text.
pub(crate) fn write_text<K: Sink>(sink: &mut K, text: &[u8]) -> Result<(), DiscoverError>
    ensures ok { OnOk result (Grows (K.held sink.old) text.now (K.held sink.new)) }
    ensures err { IfErr result (IsTextCut text.now (K.held sink.old) (K.held sink.new)
        (K.faults sink.old) (K.faults sink.new)) }
    ensures faults { K.faults sink.old ≤ K.faults sink.new }
    ensures heard { ¬ IsErrOf result DiscoverError.WriteFault
        → K.faults sink.new ≡ K.faults sink.old }
{
    match write_all(sink, text) {
        Ok(()) => Ok(()),
        Err(PutError::Failed) => Err(DiscoverError::WriteFault),
        Err(PutError::NoMemory) => Err(DiscoverError::NoMemory),
    }
}

/// The place of the first line feed.
pub(crate) fn first_line_feed(text: &[u8]) -> Option<usize>
    ensures value { result ≡ position (λ b. b == 10) text.now }
    ensures few { IfSome result (λ at. at + 1 < 2 ^ 64) }
{
    text.iter().position(|b| *b == b'\n')
}
