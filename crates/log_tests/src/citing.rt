//! What no clause says: that citations come where there is memory. Worked rows, each with its answer.

use crate::logs::{FREE, MIDDLE};
use geo_library::{CiteError, cite};
use std::alloc::{AllocError, Global};
use std::test::Fail;

/// A point of a line lies on it.
const ONLINE: &[&str] = &[
    "geolog 2",
    "| point A",
    "| point B",
    "| online X A B",
    "| prove { collinear A B X }",
    "condition 1 different A B",
    "start : +1*P0.1.0",
    "coords : +2*x0^2 -4*x0*x1 +2*y0^2 -4*y0*y1 +2*x1^2 +2*y1^2",
    "cut 2 : +1*x0^2 -2*x0*x1 +1*y0^2 -2*y0*y1 +1*x1^2 +1*y1^2",
    "end",
    "goal 1 collinear A B X",
    "start : +1*S0.1.2",
    "point 2 : 0",
    "end",
    "sample x0=0 y0=0 x1=0 y1=1 t0=0",
    "verdict proved",
];

/// A foot is the foot of a perpendicular.
const FOOT: &[&str] = &[
    "geolog 2",
    "| point A",
    "| point B",
    "| point C",
    "| foot F C A B",
    "| prove { perpendicular C F A B }",
    "condition 1 different A B",
    "start : +1*P0.1.0",
    "coords : +2*x0^2 -4*x0*x1 +2*y0^2 -4*y0*y1 +2*x1^2 +2*y1^2",
    "cut 2 : +1*x0^2 -2*x0*x1 +1*y0^2 -2*y0*y1 +1*x1^2 +1*y1^2",
    "end",
    "goal 1 perpendicular C F A B",
    "start : +1*P1.0.2 -1*P1.0.3",
    "point 3 : 0",
    "end",
    "sample x0=0 y0=0 x1=0 y1=1 x2=0 y2=0",
    "verdict proved",
];

/// A turned segment is perpendicular to the segment.
const TURNED: &[&str] = &[
    "geolog 2",
    "| point A",
    "| point B",
    "| param r",
    "| tratio X A B r",
    "| prove { perpendicular A X A B }",
    "goal 1 perpendicular A X A B",
    "start : -1*P1.0.2",
    "cut -1 : +1*P1.0.2",
    "point 2 : 0",
    "end",
    "sample x0=0 y0=0 x1=0 y1=0 t0=0",
    "verdict proved",
];

/// A log whose program has a line.
const LINE: &[&str] = &[
    "geolog 2",
    "| point A",
    "| point B",
    "| line l A B",
    "| prove { collinear A A B }",
    "condition 1 different A B",
    "start : +1*P0.1.0",
    "coords : +2*x0^2 -4*x0*x1 +2*y0^2 -4*y0*y1 +2*x1^2 +2*y1^2",
    "cut 2 : +1*x0^2 -2*x0*x1 +1*y0^2 -2*y0*y1 +1*x1^2 +1*y1^2",
    "end",
    "goal 1 collinear A A B",
    "start : 0",
    "end",
    "sample x0=0 y0=0 x1=0 y1=1",
    "verdict proved",
];

/// What is answered: the text that is cited, or an error; places count from the end of the log.
#[derive(Clone, Copy)]
enum Answer {
    Cited(&'static str),
    Syntax(u32, u64),
    Error(CiteError),
}

/// Each row: the log, what follows it, the steps, and the answer.
const ROWS: &[(&[&str], &str, u64, Answer)] = &[
    (
        MIDDLE,
        "with P Q N\npoint P point Q pratio N Q Q P div { 1 } { 2 } prove { collinear P N Q }",
        1000,
        Answer::Cited("collinear P N Q"),
    ),
    (
        MIDDLE,
        "with P Q N\npoint P point Q pratio N Q Q P div { 1 } { 3 } prove { collinear P N Q }",
        1000,
        Answer::Error(CiteError::NotInstance { line: 3 }),
    ),
    (
        MIDDLE,
        "with P Q N\npoint P point Q pratio N Q Q P div { 1 } { 2 } prove { collinear N P Q }",
        1000,
        Answer::Error(CiteError::NotInstance { line: 4 }),
    ),
    (
        MIDDLE,
        "with P P P\npoint P prove { collinear P P P }",
        1000,
        Answer::Cited("collinear P P P"),
    ),
    (
        MIDDLE,
        "with P Q\npoint P point Q midpoint N P Q prove { collinear P N Q }",
        1000,
        Answer::Syntax(15, 0),
    ),
    (
        MIDDLE,
        "with P Q N N\npoint P point Q midpoint N P Q prove { collinear P N Q }",
        1000,
        Answer::Syntax(15, 0),
    ),
    (
        MIDDLE,
        "with P Q r\npoint P point Q param r prove { collinear P P Q }",
        1000,
        Answer::Syntax(15, 0),
    ),
    (
        MIDDLE,
        "with P Q X\npoint P point Q midpoint N P Q prove { collinear P N Q }",
        1000,
        Answer::Syntax(15, 0),
    ),
    (
        MIDDLE,
        "with P Q  N\npoint P point Q midpoint N P Q prove { collinear P N Q }",
        1000,
        Answer::Syntax(15, 0),
    ),
    (MIDDLE, "with P Q N", 1000, Answer::Syntax(15, 0)),
    (MIDDLE, "", 1000, Answer::Syntax(15, 0)),
    (
        MIDDLE,
        "with P Q N\npoint P point Q midpoint N P prove { collinear P N Q }",
        1000,
        Answer::Syntax(4, 40),
    ),
    (
        MIDDLE,
        "with P Q N\npoint P point Q midpoint N P Q prove { collinear P N Q }",
        24,
        Answer::Error(CiteError::Spent { line: 14 }),
    ),
    (
        MIDDLE,
        "with P Q N\npoint P point Q midpoint N P Q prove { collinear P N Q }",
        23,
        Answer::Error(CiteError::Spent { line: 9 }),
    ),
    (
        MIDDLE,
        "with P Q N\npoint P point Q pratio N Q Q P div { 1 } { 2 } prove { collinear P N Q }",
        60,
        Answer::Error(CiteError::Spent { line: 16 }),
    ),
    (
        ONLINE,
        "with P Q N\npoint P point Q midpoint N P Q prove { collinear P Q N }",
        1000,
        Answer::Error(CiteError::NotInstance { line: 3 }),
    ),
    (
        ONLINE,
        "with P Q N\npoint P point Q midpoint N P Q assume different P Q prove { collinear P Q N }",
        1000,
        Answer::Cited("collinear P Q N"),
    ),
    (
        ONLINE,
        "with P Q N\npoint P point Q midpoint N P Q assume different Q P prove { collinear P Q N }",
        1000,
        Answer::Error(CiteError::NotInstance { line: 3 }),
    ),
    (
        FOOT,
        "with A B C F\npoint A point B point C online F A B prove { perpendicular C F A B }",
        1000,
        Answer::Error(CiteError::NotInstance { line: 4 }),
    ),
    (
        FOOT,
        "with A B C F\npoint A point B point C foot F C B A assume different A B prove { perpendicular C F A B }",
        1000,
        Answer::Cited("perpendicular C F A B"),
    ),
    (
        TURNED,
        "with A B r X\npoint A point B param r tratio X A B r prove { perpendicular A X A B }",
        1000,
        Answer::Cited("perpendicular A X A B"),
    ),
    (
        TURNED,
        "with A B s X\npoint A point B param s tratio Y A B s symmetric X Y A prove { perpendicular A X A B }",
        1000,
        Answer::Error(CiteError::NotInstance { line: 4 }),
    ),
    (
        FREE,
        "with A B C\npoint A point B point C prove { collinear A B C }",
        1000,
        Answer::Error(CiteError::Rejected {
            line: 11,
            reason: 33,
        }),
    ),
    (
        FREE,
        "",
        1000,
        Answer::Error(CiteError::Rejected {
            line: 11,
            reason: 33,
        }),
    ),
    (
        LINE,
        "with A B l\npoint A point B prove { collinear A A B }",
        1000,
        Answer::Error(CiteError::Rejected {
            line: 4,
            reason: 34,
        }),
    ),
];

/// The lines of a log.
fn log_of(alloc: Global, lines: &[&str]) -> Result<Vec<u8>, AllocError> {
    let mut bytes = Vec::new(alloc);
    for line in lines {
        bytes.extend_from_slice(line.as_bytes())?;
        bytes.push(b'\n')?;
    }
    Ok(bytes)
}

/// Whether this is answered of the bytes, whose log has so many of them.
fn answers(alloc: Global, bytes: &[u8], log: u64, steps: u64, answer: Answer) -> bool {
    if bytes.len() > 67_108_864 {
        return false;
    }
    match (cite(alloc, bytes, steps), answer) {
        (Ok(text), Answer::Cited(cited)) => text.bytes.as_slice() == cited.as_bytes(),
        (Err(CiteError::Syntax(fault)), Answer::Syntax(refusal, place)) => {
            fault.refusal == refusal && fault.place >= log && fault.place - log == place
        }
        (Err(error), Answer::Error(other)) => error == other,
        _ => false,
    }
}

#[test]
fn citations_have_their_answers(rt: HostRuntime) -> Result<(), Fail> {
    for (log, rest, steps, answer) in ROWS {
        let mut bytes = log_of(rt.alloc(), log)?;
        let length = bytes.len() as u64;
        bytes.extend_from_slice(rest.as_bytes())?;
        assert!(rt;
            answers(rt.alloc(), &bytes, length, *steps, *answer),
            "{rest}"
        );
    }
    Ok(())
}

#[test]
fn an_empty_input_is_refused(rt: HostRuntime) {
    let refused = CiteError::Rejected {
        line: 1,
        reason: 32,
    };
    assert!(rt; answers(rt.alloc(), b"", 0, 1000, Answer::Error(refused)));
}
