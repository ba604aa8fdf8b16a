//! The text of one line, put into a sink.

ghost use Rattle.std.specs.Prelude.{◌≡◌, ◌↔◌, ◌+◌, ◌≤◌, ℕ, [], ◌∷◌, length, take, IfErr, IfOk};
ghost use Rattle.std.specs.Prelude.{IsErrOf, IsTrue, OnErr, OnOk};
ghost use Rattle.geo_base.specs.Devices.{Grows, HasRisen};
ghost use Rattle.geo_logs.specs.Ends.{text_length};
ghost use Rattle.geo_chain.specs.Causes.{IsOfSink};
ghost use Rattle.geo_chain.specs.Sizes.{Fits, HoldsText, IsSizeAfter, IsTakable, with_text};
ghost use Rattle.geo_chain.specs.Written.{IsTextUnwritten, IsUnwritten};
ghost use Rattle.proof_log.specs.Lines.{log_text};
ghost use Rattle.proof_log.specs.Writable.{IsWritable};

use crate::errors::ProveError;
use crate::size::Size;
use geo_base::{PutError, Sink, Text, write_all};
use geo_points::NoMemory;
use proof_log::{Line, length_bound, write_line};
use std::alloc::Global;

/// The most bytes of a log's text.
const LOG_LIMIT: u64 = 67_108_864;

/// Writes a line where lines are written, within the limit of the text, and answers the size then.
pub(crate) fn put_within<K: Sink>(
    alloc: Global,
    sink: &mut K,
    size: Size,
    line: &Line,
) -> Result<Size, ProveError>
    requires takable { IsTakable size line.now }
    requires fits { Fits size }
    ensures size { IfOk result (IsSizeAfter size (text_length (line.now ∷ []))) }
    ensures fits { IfOk result Fits }
    ensures ok { OnOk result
        (HoldsText size (K.held sink.old) (log_text (line.now ∷ [])) (K.held sink.new)) }
    ensures err { (lines : ℕ) → IfErr result (IsUnwritten line.now
        (record { lines = lines; size = size; held = K.held sink.old; faults = K.faults sink.old })
        (record { lines = lines; size = size; held = K.held sink.new; faults = K.faults sink.new })) }
    ensures faults { OnOk result (K.faults sink.new ≡ K.faults sink.old) }
{
    match size {
        Size::Written(bytes) => Ok(Size::Written(put_text(alloc, sink, bytes, line)?)),
        Size::Counted => Ok(Size::Counted),
        Size::Bounded(bytes) => Ok(Size::Bounded(bound_text(alloc, bytes, line)?)),
    }
}

/// How many bytes there are at most behind a line, where there were so many at most before it. A
/// text that may be past the limit is answered by want of memory.
fn bound_text(alloc: Global, bytes: u64, line: &Line) -> Result<u64, NoMemory>
    requires fits { bytes ≤ 67108864 }
    ensures sum { IfOk result (λ n. bytes + text_length (line.now ∷ []) ≤ n) }
    ensures fits { IfOk result (λ n. n ≤ 67108864) }
{
    let room = LOG_LIMIT - bytes;
    let count = length_bound(alloc, line, room / 8)?;
    if count > room {
        return Err(NoMemory);
    }
    Ok(bytes + count)
}

/// Writes a line behind so many bytes, within the limit of the text, and answers how many there are
/// then.
fn put_text<K: Sink>(
    alloc: Global,
    sink: &mut K,
    bytes: u64,
    line: &Line,
) -> Result<u64, ProveError>
    requires writable { IsWritable line.now }
    requires fits { bytes ≤ 67108864 }
    ensures sum { IfOk result (λ n. n ≡ bytes + text_length (line.now ∷ [])) }
    ensures fits { IfOk result (λ n. n ≤ 67108864) }
    ensures ok { OnOk result
        (Grows (K.held sink.old) (log_text (line.now ∷ [])) (K.held sink.new)) }
    ensures err { (lines : ℕ) → IfErr result (IsUnwritten line.now
        (record { lines = lines; size = Size.Written bytes; held = K.held sink.old; faults = K.faults sink.old })
        (record { lines = lines; size = Size.Written bytes; held = K.held sink.new; faults = K.faults sink.new })) }
    ensures faults { OnOk result (K.faults sink.new ≡ K.faults sink.old) }
{
    let text = write_line(alloc, line)?;
    let count = text.bytes.len() as u64;
    if count > LOG_LIMIT - bytes {
        return Err(ProveError::TooLong);
    }
    put(sink, &text.bytes)?;
    Ok(bytes + count)
}

/// Writes a text where lines are written, within its limit, and answers the size then.
pub(crate) fn put_again<K: Sink>(sink: &mut K, size: Size, text: &[u8]) -> Result<Size, ProveError>
    requires fits { Fits size }
    ensures size { IfOk result (IsSizeAfter size (length text.now)) }
    ensures fits { IfOk result Fits }
    ensures ok { OnOk result (HoldsText size (K.held sink.old) text.now (K.held sink.new)) }
    ensures err { (lines : ℕ) → IfErr result (IsTextUnwritten text.now
        (record { lines = lines; size = size; held = K.held sink.old; faults = K.faults sink.old })
        (record { lines = lines; size = size; held = K.held sink.new; faults = K.faults sink.new })) }
    ensures faults { OnOk result (K.faults sink.new ≡ K.faults sink.old) }
{
    match size {
        Size::Written(bytes) => Ok(Size::Written(put_bytes(sink, bytes, text)?)),
        Size::Counted => Ok(size),
        Size::Bounded(bytes) => Ok(Size::Bounded(bound_bytes(bytes, text)?)),
    }
}

/// How many bytes there are at most behind a text.
fn bound_bytes(bytes: u64, text: &[u8]) -> Result<u64, NoMemory>
    requires fits { bytes ≤ 67108864 }
    ensures sum { IfOk result (λ n. n ≡ bytes + length text.now) }
    ensures fits { IfOk result (λ n. n ≤ 67108864) }
{
    let count = text.len() as u64;
    if count > LOG_LIMIT - bytes {
        return Err(NoMemory);
    }
    Ok(bytes + count)
}

/// Writes a text behind so many bytes, within the limit, and answers how many there are then.
fn put_bytes<K: Sink>(sink: &mut K, bytes: u64, text: &[u8]) -> Result<u64, ProveError>
    requires fits { bytes ≤ 67108864 }
    ensures sum { IfOk result (λ n. n ≡ bytes + length text.now) }
    ensures fits { IfOk result (λ n. n ≤ 67108864) }
    ensures ok { OnOk result (Grows (K.held sink.old) text.now (K.held sink.new)) }
    ensures err { (lines : ℕ) → IfErr result (IsTextUnwritten text.now
        (record { lines = lines; size = Size.Written bytes; held = K.held sink.old; faults = K.faults sink.old })
        (record { lines = lines; size = Size.Written bytes; held = K.held sink.new; faults = K.faults sink.new })) }
    ensures faults { OnOk result (K.faults sink.new ≡ K.faults sink.old) }
{
    let count = text.len() as u64;
    if count > LOG_LIMIT - bytes {
        return Err(ProveError::TooLong);
    }
    put(sink, text)?;
    Ok(bytes + count)
}

/// Whether so many more bytes are within the limit.
pub(crate) fn has_room(size: Size, bytes: u64) -> bool
    requires { Fits size }
    ensures { IsTrue result ↔ Fits (with_text size bytes) }
{
    match size {
        Size::Written(before) | Size::Bounded(before) => bytes <= LOG_LIMIT - before,
        Size::Counted => true,
    }
}

/// Writes a line, whatever the limit.
pub(crate) fn put_line<K: Sink>(alloc: Global, sink: &mut K, line: &Line) -> Result<(), ProveError>
    requires { IsWritable line.now }
    ensures ok { OnOk result
        (Grows (K.held sink.old) (log_text (line.now ∷ [])) (K.held sink.new)) }
    ensures part { OnErr result ((n : ℕ)
        × Grows (K.held sink.old) (take n (log_text (line.now ∷ []))) (K.held sink.new)) }
    ensures causes { IfErr result IsOfSink }
    ensures fault { IsErrOf result ProveError.WriteFault
        → HasRisen (K.faults sink.old) (K.faults sink.new) }
    ensures sound { OnOk result (K.faults sink.new ≡ K.faults sink.old) }
    ensures starved { IsErrOf result ProveError.NoMemory
        → K.faults sink.new ≡ K.faults sink.old }
    ensures faults { K.faults sink.old ≤ K.faults sink.new }
{
    let text = write_line(alloc, line)?;
    put(sink, &text.bytes)
}

/// Writes a text.
fn put<K: Sink>(sink: &mut K, text: &[u8]) -> Result<(), ProveError>
    ensures ok { OnOk result (Grows (K.held sink.old) text.now (K.held sink.new)) }
    ensures part { OnErr result ((n : ℕ)
        × Grows (K.held sink.old) (take n text.now) (K.held sink.new)) }
    ensures causes { IfErr result IsOfSink }
    ensures fault { IsErrOf result ProveError.WriteFault
        → HasRisen (K.faults sink.old) (K.faults sink.new) }
    ensures sound { OnOk result (K.faults sink.new ≡ K.faults sink.old) }
    ensures starved { IsErrOf result ProveError.NoMemory
        → K.faults sink.new ≡ K.faults sink.old }
    ensures faults { K.faults sink.old ≤ K.faults sink.new }
{
    match write_all(sink, text) {
        Ok(()) => Ok(()),
        Err(PutError::Failed) => Err(ProveError::WriteFault),
        Err(PutError::NoMemory) => Err(ProveError::NoMemory),
    }
}
