//! Logs under `check`, and devices that fail.
use super::{
    CROSSING_LOG, FREE_POINTS_LOG, MIDPOINT, MIDPOINT_LOG, Row, TOO_LARGE_LOG, expect_row,
    expect_rows,
};
use crate::run::run;
use geo_base::{MemSink, MemSource};
use geo_poly::Which;
use proof_printer::Status;
use std::process::Abort;
use std::test::Fail;

const MIDPOINT_LINES: [&[u8]; 12] = [
    b"geolog 2\n",
    b"| point A\n",
    b"| point B\n",
    b"| midpoint M A B\n",
    b"| prove { collinear A M B }\n",
    b"goal 1 collinear A M B\n",
    b"start : -1*S0.1.2\n",
    b"cut -1 : +1*S0.1.2\n",
    b"point 2 : 0\n",
    b"end\n",
    b"sample x0=0 y0=0 x1=0 y1=0\n",
    b"verdict proved\n",
];

const FREE_POINTS_LINES: [&[u8]; 11] = [
    b"geolog 1\n",
    b"| point A\n",
    b"| point B\n",
    b"| point C\n",
    b"| prove { collinear A B C }\n",
    b"goal 1 collinear A B C\n",
    b"start : +1*S0.1.2\n",
    b"coords : +1*x0*y1 -1*x0*y2 -1*y0*x1 +1*y0*x2 +1*x1*y2 -1*y1*x2\n",
    b"end\n",
    b"sample x0=0 y0=0 x1=0 y1=1 x2=1 y2=0\n",
    b"verdict false 1\n",
];

const MIDPOINT_ACCEPTED: &[u8] =
    b"point A\npoint B\nmidpoint M A B\nprove { collinear A M B }\naccepted proved\n";

const FREE_POINTS_ACCEPTED: &[u8] =
    b"point A\npoint B\npoint C\nprove { collinear A B C }\naccepted false 1\n";

const CROSSING_ACCEPTED: &[u8] = b"point A\npoint B\ninter X A B A B\nprove { collinear A B X }\n\
    condition 1 not_parallel A B A B\naccepted impossible 1\n";

const TOO_LARGE_START: &[u8] = b"geolog 1\n| param r\n\
    | prove { equal { r } { 170141183460469231731687303715884105727 } }\n\
    goal 1 equal { r } { 170141183460469231731687303715884105727 }\nstart : 0\n";

// The number of a line, what stands in its place, and how the log ends then.
const ALTERED_MIDPOINT: [(usize, &[u8], Status, &[u8]); 6] = [
    (
        2,
        b"|  point A\n",
        Status::Rejected {
            line: 2,
            reason: 23,
        },
        b"rejected 2 23\n",
    ),
    (
        7,
        b"start : +1*S0.1.2\n",
        Status::Rejected {
            line: 7,
            reason: 25,
        },
        b"rejected 7 25\n",
    ),
    (
        8,
        b"cut -2 : +1*S0.1.2\n",
        Status::Rejected {
            line: 8,
            reason: 28,
        },
        b"rejected 8 28\n",
    ),
    (
        9,
        b"point 2 : +1*S0.1.2\n",
        Status::Rejected {
            line: 9,
            reason: 27,
        },
        b"rejected 9 27\n",
    ),
    (
        11,
        b"sample x0=5 y0=-1 x1=0 y1=7\n",
        Status::Proved,
        MIDPOINT_ACCEPTED,
    ),
    (
        12,
        b"verdict false 1\n",
        Status::Rejected {
            line: 12,
            reason: 31,
        },
        b"rejected 12 31\n",
    ),
];

// The number of a line, what stands in its place, and the line and the reason of the refusal.
const ALTERED_FREE_POINTS: [(usize, &[u8], u64, u32); 10] = [
    (6, b"goal 2 collinear A B C\n", 6, 24),
    (8, b"", 8, 29),
    (8, b"point 2 : 0\n", 8, 26),
    (8, b"ratio R0.1.0.2 by 0 : 0\n", 8, 26),
    (8, b"cut 1*S0.1.2 : +1\n", 8, 28),
    (8, b"cut 0 : 0\n", 8, 21),
    (10, b"sample x0=0 y0=0 x1=0 y1=1 x2=0 y2=0\n", 10, 30),
    (10, b"sample x0=0 y0=0 x1=0 y1=1 x2=1\n", 10, 30),
    (11, b"verdict proved\n", 11, 31),
    (11, b"verdict false 1\nend\n", 12, 22),
];

// A run of `check` without faults.
fn check(input: &'static [u8], piece: usize, status: Status, held: &'static [u8]) -> Row {
    Row {
        words: &["check"],
        ..Row::prove(input, piece, status, held)
    }
}

// The lines, with this text in place of the line of that number.
fn altered(
    rt: &(impl AllocGlobal + Abort),
    lines: &[&[u8]],
    number: usize,
    text: &[u8],
) -> Result<Vec<u8>, Fail> {
    let mut log = Vec::new(rt.alloc());
    for (i, line) in lines.iter().enumerate() {
        log.extend_from_slice(if i + 1 == number { text } else { *line })?;
    }
    Ok(log)
}

#[test]
fn judged_logs(rt: HostRuntime) -> Result<(), Fail> {
    let which = Which::Norm;
    let rows = [
        check(MIDPOINT_LOG, 1, Status::Proved, MIDPOINT_ACCEPTED),
        check(MIDPOINT_LOG, 7, Status::Proved, MIDPOINT_ACCEPTED),
        check(MIDPOINT_LOG, 4096, Status::Proved, MIDPOINT_ACCEPTED),
        check(FREE_POINTS_LOG, 7, Status::False(1), FREE_POINTS_ACCEPTED),
        check(CROSSING_LOG, 7, Status::Impossible(1), CROSSING_ACCEPTED),
        Row {
            words: &["check", "--steps", "24"],
            ..check(MIDPOINT_LOG, 4096, Status::Proved, MIDPOINT_ACCEPTED)
        },
        Row {
            words: &["check", "--steps", "23"],
            ..check(
                MIDPOINT_LOG,
                4096,
                Status::Spent { line: 9 },
                b"stop spent 9\n",
            )
        },
        check(
            TOO_LARGE_LOG,
            4096,
            Status::Rejected {
                line: 5,
                reason: 22,
            },
            b"rejected 5 22\n",
        ),
        check(
            TOO_LARGE_START,
            4096,
            Status::TooLarge { line: 5, which },
            b"stop too_large 5 norm\n",
        ),
        Row {
            failing_writes: &[1],
            ..check(MIDPOINT_LOG, 4096, Status::WriteFault, b"")
        },
    ];
    expect_rows(&rt, &rows)
}

#[test]
fn altered_lines(rt: HostRuntime) -> Result<(), Fail> {
    for (number, text, status, held) in ALTERED_MIDPOINT {
        for piece in [1, 7, 4096] {
            let log = altered(&rt, &MIDPOINT_LINES, number, text)?;
            expect_row(&rt, &check(b"", piece, status, held), log)?;
        }
    }
    for (number, text, line, reason) in ALTERED_FREE_POINTS {
        let log = altered(&rt, &FREE_POINTS_LINES, number, text)?;
        expect_rejected(&rt, log, line, reason)?;
    }
    Ok(())
}

// Whether the log is rejected at the line, for the reason.
fn expect_rejected(
    rt: &(impl AllocGlobal + Abort),
    log: Vec<u8>,
    line: u64,
    reason: u32,
) -> Result<(), Fail> {
    let row = Row {
        held: None,
        ..check(b"", 4096, Status::Rejected { line, reason }, b"")
    };
    expect_row(rt, &row, log)
}

#[test]
fn prefixes(rt: HostRuntime) -> Result<(), Fail> {
    let mut prefix = Vec::new(rt.alloc());
    for (i, line) in MIDPOINT_LINES.iter().enumerate() {
        let number = i as u64 + 1;
        expect_rejected(&rt, prefix.clone()?, number, 32)?;
        let (at, reason) = match i {
            0 => (1, 21),
            1..=4 => (2, 23),
            _ => (number, 21),
        };
        for byte in *line {
            if *byte != b'\n' {
                prefix.push(*byte)?;
                expect_rejected(&rt, prefix.clone()?, at, reason)?;
            }
        }
        prefix.push(b'\n')?;
    }
    let row = check(b"", 4096, Status::Proved, MIDPOINT_ACCEPTED);
    expect_row(&rt, &row, prefix)
}

#[test]
fn failing_reads(rt: HostRuntime) -> Result<(), Fail> {
    let alloc = rt.alloc();
    // The calls that give bytes, and the one that tells the end.
    let calls = MIDPOINT_LOG.len() as u64 / 7 + 2;
    for call in 1..calls + 1 {
        let input = Vec::from_slice(alloc, MIDPOINT_LOG)?;
        let mut source = MemSource::new(alloc, input, 7, vec![in alloc; call]?);
        let mut sink = MemSink::new(alloc, Vec::new(alloc));
        let status = run(alloc, &words_of(&rt, "check")?, &mut source, &mut sink);
        assert_eq!(rt; status, Status::ReadFault);
        assert_eq!(rt; sink.bytes().len(), 0);
    }
    Ok(())
}

#[test]
fn failing_writes(rt: HostRuntime) -> Result<(), Fail> {
    let alloc = rt.alloc();
    let mut held = Vec::new(alloc);
    for (i, line) in MIDPOINT_LINES.iter().enumerate() {
        let input = Vec::from_slice(alloc, MIDPOINT)?;
        let mut source = MemSource::new(alloc, input, 4096, Vec::new(alloc));
        let mut sink = MemSink::new(alloc, vec![in alloc; i as u64 + 1]?);
        let status = run(alloc, &words_of(&rt, "prove")?, &mut source, &mut sink);
        assert_eq!(rt; status, Status::WriteFault);
        assert_eq!(rt; sink.bytes(), held.as_slice());
        held.extend_from_slice(*line)?;
    }
    Ok(())
}

// One word.
fn words_of(rt: &(impl AllocGlobal + Abort), word: &str) -> Result<Vec<String>, Fail> {
    let mut words = Vec::new(rt.alloc());
    words.push(String::from_str(rt.alloc(), word)?)?;
    Ok(words)
}
