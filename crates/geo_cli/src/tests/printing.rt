//! Readable proofs, and what the numbers of generated programs give.
use super::{FREE_POINTS_LOG, MIDPOINT_LOG, Row, expect_rows};
use crate::run::run;
use geo_base::{MemSink, MemSource};
use proof_printer::Status;
use std::test::Fail;

const MIDPOINT_PROOF: &[u8] =
    b"point A\npoint B\nmidpoint M A B\nprove { collinear A M B }\nGoal 1: collinear A M B\n  \
    -1*S(A,B,M)\n  divide by -1: +1*S(A,B,M)\n  S(A,B,M) = (0) / (+2)\n  gives 0\n  zero\n\
    At x(A)=0 y(A)=0 x(B)=0 y(B)=0\nProved.\n";

// The start has another sign.
const ALTERED_LOG: &[u8] =
    b"geolog 1\n| point A\n| point B\n| midpoint M A B\n| prove { collinear A M B }\n\
    goal 1 collinear A M B\nstart : +1*S0.1.2\ncut -1 : +1*S0.1.2\npoint 2 : 0\nend\n\
    sample x0=0 y0=0 x1=0 y1=0\nverdict proved\n";

const FIRST_BENCH: &[u8] = b"bench 1\npoints 10\nlines 21\ncharge 57\nproved\n";

const SPENT_BENCH: &[u8] = b"bench 1\npoints 10\nstop spent 18\n";

// A run of `text` without faults.
fn text(input: &'static [u8], piece: usize, status: Status, held: &'static [u8]) -> Row {
    Row {
        words: &["text"],
        ..Row::prove(input, piece, status, held)
    }
}

// A run of these words, of which no read is good.
fn bench(words: &'static [&'static str], status: Status, held: &'static [u8]) -> Row {
    Row {
        words,
        failing_reads: &[1],
        ..Row::prove(b"", 4096, status, held)
    }
}

#[test]
fn readable_proofs(rt: HostRuntime) -> Result<(), Fail> {
    let (line, reason) = (7, 25);
    let refused = Status::Rejected { line, reason };
    let rows = [
        text(MIDPOINT_LOG, 1, Status::Done, MIDPOINT_PROOF),
        text(MIDPOINT_LOG, 4096, Status::Done, MIDPOINT_PROOF),
        Row {
            held: None,
            ..text(FREE_POINTS_LOG, 4096, Status::Done, b"")
        },
        text(ALTERED_LOG, 7, refused, b"rejected 7 25\n"),
        Row {
            words: &["--steps=23", "text"],
            ..text(
                MIDPOINT_LOG,
                7,
                Status::Spent { line: 9 },
                b"stop spent 9\n",
            )
        },
        Row {
            failing_reads: &[2],
            ..text(MIDPOINT_LOG, 16, Status::ReadFault, b"")
        },
        Row {
            failing_writes: &[1],
            ..text(MIDPOINT_LOG, 4096, Status::WriteFault, b"")
        },
    ];
    expect_rows(&rt, &rows)
}

#[test]
fn generated_programs(rt: HostRuntime) -> Result<(), Fail> {
    let spent = Status::Spent { line: 18 };
    let rows = [
        bench(&["bench", "1"], Status::Proved, FIRST_BENCH),
        bench(
            &["bench", "1", "--steps", "57"],
            Status::Proved,
            FIRST_BENCH,
        ),
        bench(&["bench", "--steps=56", "1"], spent, SPENT_BENCH),
        Row {
            failing_writes: &[1],
            ..bench(&["bench", "1"], Status::WriteFault, b"")
        },
        Row::misuse(&["bench"]),
        Row::misuse(&["bench", "0"]),
        Row::misuse(&["bench", "01"]),
        Row::misuse(&["bench", "61"]),
        Row::misuse(&["bench", "1", "2"]),
        Row::misuse(&["text", "1"]),
    ];
    expect_rows(&rt, &rows)
}

#[test]
fn the_largest_workload(rt: HostRuntime) -> Result<(), Fail> {
    let alloc = rt.alloc();
    let mut words = Vec::new(alloc);
    words.push(String::from_str(alloc, "bench")?)?;
    words.push(String::from_str(alloc, "60")?)?;
    let mut source = MemSource::new(alloc, Vec::new(alloc), 1, Vec::new(alloc));
    let mut sink = MemSink::new(alloc, Vec::new(alloc));
    let status = run(alloc, &words, &mut source, &mut sink);
    assert_eq!(rt; status, Status::Proved);
    assert!(rt; sink.bytes().starts_with(b"bench 60\npoints 246\nlines "));
    Ok(())
}
