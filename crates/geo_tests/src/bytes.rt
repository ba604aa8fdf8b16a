//! What no clause says: that calls succeed with ample memory, and what happens after a fault.
use geo_base::{
    Budget, DecimalError, MemSink, MemSource, PutError, ReadError, ReaderSource, Spent, SureSink,
    SureSource, WriterSink, push_decimal, read_all, read_decimal, write_all,
};
use std::io;
use std::io::{Read, Write};
use std::test::Fail;

// Gives a byte a call, and fails once, where `before` bytes are left.
#[derive(Drop)]
struct FailsOnce {
    bytes: &'static [u8],
    before: Option<usize>,
}

impl Read for FailsOnce {
    fn read(&mut self, buf: &mut [u8]) -> io::Result<usize> {
        if self.before == Some(self.bytes.len()) {
            self.before = None;
            return Err(io::ErrorKind::Other.into());
        }
        if self.bytes.is_empty() || buf.is_empty() {
            return Ok(0);
        }
        buf[0] = self.bytes[0];
        self.bytes = &self.bytes[1..];
        Ok(1)
    }
}

// Takes a byte a call. Its third write takes nothing, its fifth fails, and its seventh flush fails.
#[derive(Drop)]
struct Faulty<'a> {
    taken: &'a mut Vec<u8>,
    writes: u8,
}

impl<'a> Write for Faulty<'a> {
    fn write(&mut self, buf: &[u8]) -> io::Result<usize> {
        self.writes = self.writes.saturating_add(1);
        if self.writes == 5 {
            return Err(io::ErrorKind::Other.into());
        }
        if self.writes == 3 || buf.is_empty() {
            return Ok(0);
        }
        self.taken.push(buf[0])?;
        Ok(1)
    }

    fn flush(&mut self) -> io::Result<()> {
        if self.writes == 7 {
            return Err(io::ErrorKind::Other.into());
        }
        Ok(())
    }
}

// Takes two bytes a call, and counts its flushes.
#[derive(Drop)]
struct CountsFlushes<'a> {
    flushes: &'a mut u64,
}

impl<'a> Write for CountsFlushes<'a> {
    fn write(&mut self, buf: &[u8]) -> io::Result<usize> {
        Ok(buf.len().min(2))
    }

    fn flush(&mut self) -> io::Result<()> {
        *self.flushes = self.flushes.saturating_add(1);
        Ok(())
    }
}

#[test]
fn reads_to_the_end_or_the_limit(rt: HostRuntime) -> Result<(), Fail> {
    let text = b"point A\n";
    let table = [
        (1, 100, 10, Ok(())),
        (7, 100, 9, Ok(())),
        (7, 8, 9, Ok(())),
        (7, 7, 9, Err(ReadError::TooLong)),
        (8, 0, 9, Err(ReadError::TooLong)),
        (3, 100, 2, Err(ReadError::ReadFault)),
    ];
    for (piece, limit, failing, want) in table {
        let bytes = Vec::from_slice(rt.alloc(), text)?;
        let fails = Vec::from_slice(rt.alloc(), &[failing])?;
        let mut source = MemSource::new(rt.alloc(), bytes, piece, fails);
        match read_all(rt.alloc(), &mut source, limit) {
            Ok(read) => {
                assert_eq!(rt; Ok(()), want, "piece {piece}");
                assert_eq!(rt; read.as_slice(), text.as_slice());
            }
            Err(error) => assert_eq!(rt; Err(error), want, "limit {limit}"),
        }
    }
    Ok(())
}

#[test]
fn reads_on_after_the_limit(rt: HostRuntime) -> Result<(), Fail> {
    let bytes = Vec::from_slice(rt.alloc(), b"abcdef")?;
    let mut source = SureSource::new(rt.alloc(), bytes);
    assert_eq!(rt;
        read_all(rt.alloc(), &mut source, 3).err(),
        Some(ReadError::TooLong)
    );
    assert_eq!(rt;
        read_all(rt.alloc(), &mut source, 3)?.as_slice(),
        b"ef".as_slice()
    );
    Ok(())
}

#[test]
fn writes_on_after_a_fault(rt: HostRuntime) -> Result<(), Fail> {
    let fails = Vec::from_slice(rt.alloc(), &[3])?;
    let mut sink = MemSink::new(rt.alloc(), fails);
    write_all(&mut sink, b"ab")?;
    write_all(&mut sink, b"")?;
    write_all(&mut sink, b"cd")?;
    assert_eq!(rt; write_all(&mut sink, b"ef"), Err(PutError::Failed));
    write_all(&mut sink, b"gh")?;
    assert_eq!(rt; sink.bytes(), b"abcdgh".as_slice());

    let mut sure = SureSink::new(rt.alloc());
    write_all(&mut sure, b"ab")?;
    write_all(&mut sure, b"cd")?;
    assert_eq!(rt; sure.bytes(), b"abcd".as_slice());
    Ok(())
}

#[test]
fn a_reader_that_fails_in_mid_stream_is_a_fault(rt: HostRuntime) -> Result<(), Fail> {
    let mut source = ReaderSource::new(FailsOnce {
        bytes: b"abcdef",
        before: Some(4),
    });
    assert_eq!(rt;
        read_all(rt.alloc(), &mut source, 6).err(),
        Some(ReadError::ReadFault)
    );
    assert_eq!(rt;
        read_all(rt.alloc(), &mut source, 6)?.as_slice(),
        b"cdef".as_slice()
    );
    Ok(())
}

#[test]
fn a_writer_that_fails_in_mid_stream_is_a_fault(rt: HostRuntime) -> Result<(), Fail> {
    let mut taken = Vec::new(rt.alloc());
    let mut sink = WriterSink::new(Faulty {
        taken: &mut taken,
        writes: 0,
    });
    assert_eq!(rt;
        write_all(&mut sink, b"abc"),
        Err(PutError::Failed),
        "takes nothing"
    );
    assert_eq!(rt;
        write_all(&mut sink, b"def"),
        Err(PutError::Failed),
        "fails"
    );
    assert_eq!(rt;
        write_all(&mut sink, b"ghi"),
        Err(PutError::Failed),
        "fails to flush"
    );
    write_all(&mut sink, b"jk")?;
    drop(sink);
    assert_eq!(rt; taken.as_slice(), b"abdghjk".as_slice());
    Ok(())
}

#[test]
fn a_writer_is_flushed_after_each_write(rt: HostRuntime) -> Result<(), Fail> {
    let mut flushes = 0;
    let mut sink = WriterSink::new(CountsFlushes {
        flushes: &mut flushes,
    });
    write_all(&mut sink, b"abcde")?;
    drop(sink);
    assert_eq!(rt; flushes, 3);
    Ok(())
}

#[test]
fn reads_decimal_text(rt: HostRuntime) {
    let table = [
        ("0", Ok(0)),
        ("-0", Ok(0)),
        ("007", Ok(7)),
        ("-12", Ok(-12)),
        ("170141183460469231731687303715884105727", Ok(i128::MAX)),
        ("-0170141183460469231731687303715884105727", Ok(-i128::MAX)),
        (
            "170141183460469231731687303715884105728",
            Err(DecimalError::Wide),
        ),
        (
            "-170141183460469231731687303715884105728",
            Err(DecimalError::Wide),
        ),
        (
            "9999999999999999999999999999999999999999999",
            Err(DecimalError::Wide),
        ),
        (
            "9999999999999999999999999999999999999999999x",
            Err(DecimalError::NotDecimal),
        ),
        ("", Err(DecimalError::NotDecimal)),
        ("-", Err(DecimalError::NotDecimal)),
        ("1a", Err(DecimalError::NotDecimal)),
        ("+1", Err(DecimalError::NotDecimal)),
        ("--1", Err(DecimalError::NotDecimal)),
    ];
    for (text, want) in table {
        assert_eq!(rt; read_decimal(text.as_bytes()), want, "{text}");
    }
    assert_eq!(rt; read_decimal(&[b'0'; 500]), Ok(0));
}

#[test]
fn prints_decimal_text(rt: HostRuntime) -> Result<(), Fail> {
    let mut out = Vec::new(rt.alloc());
    for n in [0, -7, i128::MAX, i128::MIN] {
        push_decimal(rt.alloc(), &mut out, n)?;
        out.push(b' ')?;
    }
    let want = b"0 -7 170141183460469231731687303715884105727 \
        -170141183460469231731687303715884105728 ";
    assert_eq!(rt; out.as_slice(), want.as_slice());
    Ok(())
}

#[test]
fn spends_all_or_nothing(rt: HostRuntime) {
    let mut budget = Budget { left: 5 };
    assert_eq!(rt; budget.spend(6), Err(Spent));
    assert_eq!(rt; budget.spend(5), Ok(()));
    assert_eq!(rt; budget.left, 0);
}
