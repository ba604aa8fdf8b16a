//! Whole logs, cut logs and altered logs, against worked tables.

ghost use Rattle.std.specs.Prelude.{◌≤◌, length};
ghost use Rattle.proof_log.specs.Writable.{HasNoLineFeed};

use crate::logs::{FREE, HIDDEN, ITSELF, MIDDLE, NUMBERS, WEIGHTED};
use geo_poly::Which;
use log_checker::{Accepted, CheckError, Checker, check};
use proof_log::Verdict;
use std::alloc::{AllocError, Global};
use std::test::Fail;

/// The header of version 2.
const SECOND: &str = "geolog 2";

/// The log, with the line of this number replaced, and then cut to so many lines; number 0 replaces
/// none.
fn altered(
    alloc: Global,
    log: &[&str],
    number: usize,
    line: &str,
    lines: usize,
) -> Result<Vec<u8>, AllocError> {
    let mut bytes = Vec::new(alloc);
    for at in 0..log.len() {
        if at < lines {
            let new = if at + 1 == number { line } else { log[at] };
            bytes.extend_from_slice(new.as_bytes())?;
            bytes.push(b'\n')?;
        }
    }
    Ok(bytes)
}

/// Whether the answer is this verdict, of so many lines with this charge.
fn is_accepted(
    answer: Result<Accepted, CheckError>,
    verdict: Verdict,
    lines: u64,
    charge: u64,
) -> bool {
    match answer {
        Ok(accepted) => {
            accepted.verdict == verdict && accepted.lines == lines && accepted.charge == charge
        }
        Err(_) => false,
    }
}

/// Whether the answer is this error.
fn is_refused(answer: Result<Accepted, CheckError>, error: CheckError) -> bool {
    match answer {
        Ok(_) => false,
        Err(other) => other == error,
    }
}

/// Whether the log is accepted so, with these steps.
fn accepts(
    alloc: Global,
    log: &[u8],
    steps: u64,
    verdict: Verdict,
    lines: u64,
    charge: u64,
) -> bool {
    log.len() <= 67_108_864 && is_accepted(check(alloc, log, steps), verdict, lines, charge)
}

/// Whether the log is refused so, with these steps.
fn refuses(alloc: Global, log: &[u8], steps: u64, error: CheckError) -> bool {
    log.len() <= 67_108_864 && is_refused(check(alloc, log, steps), error)
}

#[test]
fn whole_logs_are_accepted(rt: HostRuntime) -> Result<(), Fail> {
    let rows: [(&[&str], u64, Verdict, u64, u64); 7] = [
        (MIDDLE, 24, Verdict::Proved, 12, 24),
        (MIDDLE, 100_000_000, Verdict::Proved, 12, 24),
        (FREE, 55, Verdict::False(1), 11, 55),
        (ITSELF, 100_000_000, Verdict::Impossible(1), 9, 3),
        (NUMBERS, 20, Verdict::False(1), 15, 20),
        (HIDDEN, 89, Verdict::Proved, 14, 89),
        (WEIGHTED, 71, Verdict::Proved, 12, 71),
    ];
    for (log, steps, verdict, lines, charge) in rows {
        let bytes = altered(rt.alloc(), log, 0, "", log.len())?;
        assert!(rt;
            accepts(rt.alloc(), &bytes, steps, verdict, lines, charge),
            "{lines}"
        );
    }
    Ok(())
}

const fn rejected(line: u64, reason: u32) -> CheckError {
    CheckError::Rejected { line, reason }
}

#[test]
fn altered_logs_are_refused(rt: HostRuntime) -> Result<(), Fail> {
    let rows: [(&[&str], usize, &str, u64, CheckError); 45] = [
        (MIDDLE, 0, "", 23, CheckError::Spent { line: 9 }),
        (MIDDLE, 1, "geolog 0", 24, rejected(1, 21)),
        (MIDDLE, 1, "geolog 3", 24, rejected(1, 21)),
        (MIDDLE, 1, "end", 24, rejected(1, 22)),
        (MIDDLE, 1, "| point A", 24, rejected(1, 22)),
        (MIDDLE, 2, "|  point A", 24, rejected(2, 23)),
        (MIDDLE, 2, "geolog 1", 24, rejected(2, 23)),
        (MIDDLE, 3, "|point B", 24, rejected(2, 23)),
        (MIDDLE, 6, "| ", 24, rejected(2, 23)),
        (MIDDLE, 6, "goal 1 ", 24, rejected(6, 24)),
        (
            MIDDLE,
            6,
            "condition 1 collinear A M B",
            24,
            rejected(6, 24),
        ),
        (MIDDLE, 7, "start : +1*S0.1.2", 24, rejected(7, 25)),
        (MIDDLE, 7, "stop spent 0", 24, rejected(7, 22)),
        (MIDDLE, 8, "cut -2 : +1*S0.1.2", 24, rejected(8, 28)),
        (MIDDLE, 8, "cut -1 : +2*S0.1.2", 24, rejected(8, 27)),
        (MIDDLE, 9, "point 2 : +1*S0.1.2", 24, rejected(9, 27)),
        (MIDDLE, 9, "point 3 : 0", 24, rejected(9, 26)),
        (MIDDLE, 9, "ratio R0.1.0.2 by 0 : 0", 24, rejected(9, 26)),
        (MIDDLE, 12, "verdict false 1", 24, rejected(12, 31)),
        (MIDDLE, 12, "verdict proved\nend", 24, rejected(13, 22)),
        (MIDDLE, 12, "verdict proved\nverdict", 24, rejected(13, 21)),
        (FREE, 6, "goal 2 collinear A B C", 55, rejected(6, 24)),
        (FREE, 8, "end", 55, rejected(8, 29)),
        (FREE, 8, "point 2 : 0", 55, rejected(8, 26)),
        (FREE, 8, "ratio R0.1.0.2 by 0 : 0", 55, rejected(8, 26)),
        (FREE, 8, "cut 1*S0.1.2 : +1", 55, rejected(8, 28)),
        (FREE, 8, "cut 0 : 0", 55, rejected(8, 21)),
        (
            FREE,
            10,
            "sample x0=0 y0=0 x1=0 y1=1 x2=0 y2=0",
            55,
            rejected(10, 30),
        ),
        (
            FREE,
            10,
            "sample x0=0 y0=0 x1=0 y1=1 x2=1",
            55,
            rejected(10, 30),
        ),
        (
            FREE,
            10,
            "sample y0=0 x0=0 x1=0 y1=1 x2=1 y2=0",
            55,
            rejected(10, 30),
        ),
        (FREE, 0, "", 54, CheckError::Spent { line: 10 }),
        (FREE, 11, "verdict proved", 55, rejected(11, 31)),
        (FREE, 11, "verdict false 0", 55, rejected(11, 31)),
        (FREE, 11, "verdict false 1\nend", 55, rejected(12, 22)),
        (ITSELF, 9, "goal 1 collinear A B X", 3, rejected(9, 22)),
        (ITSELF, 9, "verdict impossible 2", 3, rejected(9, 31)),
        (NUMBERS, 6, "cut 1*t0 : +1", 20, rejected(6, 28)),
        (NUMBERS, 9, "cut 1*t0 : +1", 20, rejected(9, 28)),
        (NUMBERS, 14, "sample t0=1", 20, rejected(14, 30)),
        (NUMBERS, 0, "", 19, CheckError::Spent { line: 14 }),
        (HIDDEN, 0, "", 88, CheckError::Spent { line: 11 }),
        (HIDDEN, 1, SECOND, 89, rejected(8, 25)),
        (WEIGHTED, 0, "", 70, CheckError::Spent { line: 9 }),
        (WEIGHTED, 1, "geolog 1", 71, rejected(8, 25)),
        (WEIGHTED, 8, HIDDEN[7], 71, rejected(8, 25)),
    ];
    for (log, number, line, steps, error) in rows {
        let bytes = altered(rt.alloc(), log, number, line, log.len())?;
        assert!(rt;
            refuses(rt.alloc(), &bytes, steps, error),
            "{number}: {line}"
        );
    }
    Ok(())
}

/// The version that is answered of the log, with its header replaced.
fn version_of_log(alloc: Global, log: &[&str], header: &str) -> Result<u32, Fail> {
    let bytes = altered(alloc, log, 1, header, log.len())?;
    if bytes.len() > 67_108_864 {
        return Ok(0);
    }
    match check(alloc, &bytes, 1000) {
        Ok(accepted) => Ok(accepted.version),
        Err(_) => Ok(0),
    }
}

#[test]
fn versions_are_told(rt: HostRuntime) -> Result<(), Fail> {
    for log in [MIDDLE, FREE, ITSELF, NUMBERS] {
        assert!(rt; version_of_log(rt.alloc(), log, "geolog 1")? == 1);
        assert!(rt; version_of_log(rt.alloc(), log, SECOND)? == 2);
    }
    assert!(rt; version_of_log(rt.alloc(), HIDDEN, "geolog 1")? == 1);
    assert!(rt; version_of_log(rt.alloc(), WEIGHTED, SECOND)? == 2);
    Ok(())
}

#[test]
fn other_samples_are_accepted(rt: HostRuntime) -> Result<(), Fail> {
    let bytes = altered(rt.alloc(), MIDDLE, 11, "sample x0=5 y0=-1 x1=0 y1=7", 12)?;
    assert!(rt; accepts(rt.alloc(), &bytes, 24, Verdict::Proved, 12, 24));
    Ok(())
}

/// A number whose weight passes its limit.
const WIDE: &[&str] = &[
    "geolog 1",
    "| param r",
    "| prove { equal { r } { 170141183460469231731687303715884105727 } }",
    "goal 1 equal { r } { 170141183460469231731687303715884105727 }",
    "start : 0",
];

#[test]
fn wide_starts_are_refused(rt: HostRuntime) -> Result<(), Fail> {
    let stop = CheckError::TooLarge {
        line: 5,
        which: Which::Norm,
    };
    let rows: [(&str, CheckError); 3] = [
        ("start : 0", stop),
        ("stop too_large 5 norm", rejected(5, 22)),
        (
            "start : +1*t0 -170141183460469231731687303715884105727",
            rejected(5, 21),
        ),
    ];
    for (line, error) in rows {
        let bytes = altered(rt.alloc(), WIDE, 5, line, 5)?;
        assert!(rt; refuses(rt.alloc(), &bytes, 100, error), "{line}");
    }
    Ok(())
}

/// What a log is refused for that ends in the line of this number, before its line feed.
fn cut_in_line(number: usize) -> CheckError {
    match number {
        1 => rejected(1, 21),
        2..=5 => rejected(2, 23),
        _ => rejected(number as u64, 21),
    }
}

#[test]
fn cut_logs_are_refused(rt: HostRuntime) -> Result<(), Fail> {
    for lines in 0..12usize {
        let mut bytes = altered(rt.alloc(), MIDDLE, 0, "", lines)?;
        let missing = rejected(lines as u64 + 1, 32);
        assert!(rt; refuses(rt.alloc(), &bytes, 24, missing), "{lines} lines");
        let cut = cut_in_line(lines + 1);
        for byte in MIDDLE[lines].as_bytes() {
            bytes.push(*byte)?;
            assert!(rt; refuses(rt.alloc(), &bytes, 24, cut), "in line {lines}");
        }
    }
    Ok(())
}

/// Whether a line is refused so where none came before it, and so is every later call.
fn stays_refused(alloc: Global, line: &[u8], error: CheckError) -> bool
    requires one_line { HasNoLineFeed line.now }
    requires short { length line.now ≤ 100 }
{
    let Ok(mut checker) = Checker::new(alloc, 24) else {
        return false;
    };
    checker.take(line) == Err(error)
        && checker.take(b"geolog 1") == Err(error)
        && is_refused(checker.finish(b""), error)
}

#[test]
fn errors_stay(rt: HostRuntime) -> Result<(), Fail> {
    assert!(rt; stays_refused(rt.alloc(), b"end", rejected(1, 22)));
    assert!(rt; stays_refused(rt.alloc(), b"endless", rejected(1, 21)));
    Ok(())
}
