//! A verdict or a number as a part of a text.
ghost use Rattle.std.specs.Prelude.{◌≡◌, ◌∷◌, ◌++◌, [], OnErr, OnOk};
ghost use Rattle.std.specs.Fmt.{decimal};
ghost use Rattle.proof_log.specs.Lines.{verdict_text};

use geo_base::push_decimal;
use geo_points::NoMemory;
use proof_log::Verdict;
use std::alloc::Global;

/// Appends the words of a verdict, and a line feed.
pub fn push_verdict(alloc: Global, out: &mut Vec<u8>, verdict: Verdict) -> Result<(), NoMemory>
    ensures ok { OnOk result (out.new.items ≡ out.old.items ++ verdict_text verdict ++ 10 ∷ []) }
    ensures err { OnErr result (out.new.items ≡ out.old.items) }
{
    let before = out.len();
    match verdict {
        Verdict::Proved => out.extend_from_slice(b"proved")?,
        Verdict::False(goal) => push_numbered(alloc, out, b"false ", goal as u64)?,
        Verdict::Impossible(condition) => {
            push_numbered(alloc, out, b"impossible ", condition as u64)?
        }
    }
    if out.push(b'\n').is_err() {
        out.truncate(before);
        return Err(NoMemory);
    }
    Ok(())
}

/// Appends words and a number.
pub fn push_numbered(
    alloc: Global,
    out: &mut Vec<u8>,
    words: &[u8],
    number: u64,
) -> Result<(), NoMemory>
    ensures ok { OnOk result (out.new.items ≡ out.old.items ++ words.now ++ decimal number) }
    ensures err { OnErr result (out.new.items ≡ out.old.items) }
{
    let before = out.len();
    out.extend_from_slice(words)?;
    if push_decimal(alloc, out, number as i128).is_err() {
        out.truncate(before);
        return Err(NoMemory);
    }
    Ok(())
}
