//! What no clause says: that calls succeed with ample memory.
ghost use Rattle.std.specs.Prelude.{◌≡◌, ◌<◌, false};

use geo_base::{LineReader, MemSource, NextLine, NoMemory, ReadError, SureSource};
use std::alloc::Global;
use std::test::Fail;

/// A source of `text` in pieces of at most `piece` bytes, whose call numbered `failing` fails.
fn source_of(alloc: Global, text: &[u8], piece: usize, failing: u64) -> Result<MemSource, NoMemory>
    requires { 0 < piece }
{
    let bytes = Vec::from_slice(alloc, text)?;
    let fails = Vec::from_slice(alloc, &[failing])?;
    Ok(MemSource::new(alloc, bytes, piece, fails))
}

/// All lines with a `|` after each, and then the rest.
fn all_lines(
    alloc: Global,
    reader: &mut LineReader,
    source: &mut MemSource,
) -> Result<Vec<u8>, ReadError>
    requires { reader.old.ended ≡ false }
{
    let mut all = Vec::new(alloc);
    for _ in 0..100 {
        match reader.next(source)? {
            NextLine::Line(line) => {
                all.extend_from_slice(line.bytes.as_slice())?;
                all.extend_from_slice(b"|")?;
            }
            NextLine::Rest(rest) => {
                all.extend_from_slice(rest.bytes.as_slice())?;
                break;
            }
        }
    }
    Ok(all)
}

#[test]
fn reads_lines_and_the_rest(rt: HostRuntime) -> Result<(), Fail> {
    let table = [
        ("", 0, 99, Ok("")),
        ("\n", 1, 99, Ok("|")),
        ("a", 9, 99, Ok("a")),
        ("point A\n\nend\nrest", 17, 99, Ok("point A||end|rest")),
        ("point A\n\nend\nrest", 16, 99, Err(ReadError::TooLong)),
        ("point A\n\nend\nrest", 0, 99, Err(ReadError::TooLong)),
        ("point A\n\nend\nrest", 17, 1, Err(ReadError::ReadFault)),
        ("point A\n\nend\nrest", 17, 2, Err(ReadError::ReadFault)),
    ];
    for (text, limit, failing, want) in table {
        for piece in [1, 7, 4096] {
            let mut source = source_of(rt.alloc(), text.as_bytes(), piece, failing)?;
            let mut reader = LineReader::new(rt.alloc(), limit)?;
            match all_lines(rt.alloc(), &mut reader, &mut source) {
                Ok(all) => {
                    let all = all.as_slice();
                    assert_eq!(rt; Ok(all), want.map(|want| want.as_bytes()), "piece {piece}");
                }
                Err(error) => assert_eq!(rt; Err(error), want, "piece {piece}, limit {limit}"),
            }
        }
    }
    Ok(())
}

#[test]
fn a_line_is_longer_than_a_read(rt: HostRuntime) -> Result<(), Fail> {
    let mut text = vec![in rt.alloc(); b'a'; 200_000]?;
    text.extend_from_slice(b"\nbc")?;
    let mut source = SureSource::new(rt.alloc(), text);
    let mut reader = LineReader::new(rt.alloc(), 200_003)?;
    match reader.next(&mut source)? {
        NextLine::Line(line) => assert_eq!(rt; line.bytes.len(), 200_000),
        NextLine::Rest(_) => assert!(rt; false, "a line comes first"),
    }
    Ok(())
}
