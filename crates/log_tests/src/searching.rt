//! Worked searches, and verdicts in the fixed frame.

use geo_base::MemSink;
use geo_discover::{DiscoverError, FixedError, Found, discover, fixed};
use geo_parser::parse;
use proof_log::Verdict;
use std::alloc::{AllocError, Global};
use std::test::Fail;

/// How a search ends.
#[derive(Clone, Copy, Debug, PartialEq, Eq)]
enum Answer {
    Finds(Found),
    Stops(DiscoverError),
    NoProgram,
}

/// A program, the answer, and how the text begins and ends.
struct Case {
    program: &'static [u8],
    answer: Answer,
    first: &'static [u8],
    last: &'static [u8],
}

const MIDDLE: &[u8] = b"point A point B midpoint M A B prove { identical A B }";

const CASES: [Case; 3] = [
    Case {
        program: MIDDLE,
        answer: Answer::Finds(Found { relations: 2 }),
        first: b"relation collinear A B M\ngeolog 2\n| point A\n| point B\n| midpoint M A B\n\
            | prove { collinear A B M }\ngoal 1 collinear A B M\nstart : +1*S0.1.2\n\
            point 2 : 0\nend\nsample x0=0 y0=0 x1=0 y1=0\nverdict proved\n\
            relation same_length A M B M\ngeolog 2\n",
        last: b"\nverdict proved\nrelations 2 open 0\n",
    },
    Case {
        program: b"point A point B inter X A B A B prove { collinear A B X }",
        answer: Answer::Stops(DiscoverError::Impossible(1)),
        first: b"impossible 1\n",
        last: b"impossible 1\n",
    },
    Case {
        program: b"point A point B prove { identical A B }",
        answer: Answer::Finds(Found { relations: 0 }),
        first: b"relations 0 open 0\n",
        last: b"relations 0 open 0\n",
    },
];

/// What the search answers and writes.
fn found(alloc: Global, program: &[u8]) -> Result<(Answer, MemSink), AllocError> {
    let mut sink = MemSink::new(alloc, Vec::new(alloc));
    if program.len() > 1000 {
        return Ok((Answer::NoProgram, sink));
    }
    let answer = match parse(alloc, program) {
        Ok(program) => match discover(alloc, &program, 100_000_000, &mut sink) {
            Ok(found) => Answer::Finds(found),
            Err(error) => Answer::Stops(error),
        },
        Err(_) => Answer::NoProgram,
    };
    Ok((answer, sink))
}

#[test]
fn relations_are_found(rt: HostRuntime) -> Result<(), Fail> {
    let alloc = rt.alloc();
    for case in &CASES {
        let (answer, sink) = found(alloc, case.program)?;
        assert_eq!(rt; answer, case.answer);
        assert!(rt; sink.bytes().starts_with(case.first));
        assert!(rt; sink.bytes().ends_with(case.last));
    }
    Ok(())
}

/// What the log in the fixed frame comes to.
#[derive(Clone, Copy, Debug, PartialEq, Eq)]
enum Frame {
    Is(Verdict),
    Stops(FixedError),
    NoProgram,
}

/// The answer for a program with so many steps.
fn framed(alloc: Global, program: &[u8], steps: u64) -> Frame {
    if program.len() > 1000 {
        return Frame::NoProgram;
    }
    match parse(alloc, program) {
        Ok(program) => match fixed(alloc, &program, steps) {
            Ok(verdict) => Frame::Is(verdict),
            Err(error) => Frame::Stops(error),
        },
        Err(_) => Frame::NoProgram,
    }
}

const COLLINEAR: &[u8] = b"point A point B midpoint M A B prove { collinear A M B }";

const TRIANGLE: &[u8] = b"point A point B point C prove { collinear A B C }";

#[test]
fn the_first_point_stands_at_the_origin(rt: HostRuntime) -> Result<(), Fail> {
    let alloc = rt.alloc();
    assert_eq!(rt; framed(alloc, COLLINEAR, 24), Frame::Is(Verdict::Proved));
    assert_eq!(rt;
        framed(alloc, COLLINEAR, 23),
        Frame::Stops(FixedError::Spent { line: 9 })
    );
    assert_eq!(rt;
        framed(alloc, TRIANGLE, 100_000),
        Frame::Is(Verdict::False(1))
    );
    Ok(())
}
