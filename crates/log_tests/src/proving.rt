//! Worked logs.

use geo_base::MemSink;
use geo_parser::parse;
use geo_poly::Which;
use geo_prover::{ProveError, prove};
use proof_log::Verdict;
use std::alloc::{AllocError, Global};
use std::test::Fail;

/// How a program's log ends.
#[derive(Clone, Copy, Debug, PartialEq, Eq)]
enum Answer {
    Is(Verdict),
    Stops(ProveError),
    NoProgram,
}

/// A program, the steps that it gets, the answer, and the log, or a part of it.
struct Case {
    program: &'static [u8],
    steps: u64,
    answer: Answer,
    part: &'static [u8],
    is_whole: bool,
}

const MIDDLE: &[u8] = b"point A point B midpoint M A B prove { collinear A M B }";

const CEVA: &[u8] =
    b"point A point B point C point P inter D B C A P inter E C A B P inter F A B C P \
    prove { equal { mult { mult { sratio A F F B } { sratio B D D C } } \
    { sratio C E E A } } { 1 } }";

const SEGMENTS: &[u8] = b"point A point B point C point D prove { equal { sratio A B C D } { 1 } }";

const INVERSES: &[u8] =
    b"param r prove { equal { div { 1 } { r } } { div { 1 } { sub { r } { 1 } } } }";

const CASES: [Case; 12] = [
    Case {
        program: MIDDLE,
        steps: 24,
        answer: Answer::Is(Verdict::Proved),
        part: b"geolog 2\n| point A\n| point B\n| midpoint M A B\n| prove { collinear A M B }\n\
            goal 1 collinear A M B\nstart : -1*S0.1.2\ncut -1 : +1*S0.1.2\npoint 2 : 0\nend\n\
            sample x0=0 y0=0 x1=0 y1=0\nverdict proved\n",
        is_whole: true,
    },
    Case {
        program: MIDDLE,
        steps: 23,
        answer: Answer::Stops(ProveError::Spent { line: 9 }),
        part: b"geolog 2\n| point A\n| point B\n| midpoint M A B\n| prove { collinear A M B }\n\
            goal 1 collinear A M B\nstart : -1*S0.1.2\ncut -1 : +1*S0.1.2\nstop spent 9\n",
        is_whole: true,
    },
    Case {
        program: CEVA,
        steps: 100_000_000,
        answer: Answer::Is(Verdict::Proved),
        part: b"\nstart : -1*R0.6.1.6*R1.4.2.4*R2.5.0.5 -1\n\
            cut -1 : +1*R0.6.1.6*R1.4.2.4*R2.5.0.5 +1\n\
            ratio R0.6.1.6 by 21 at 6 : +1*R1.4.2.4*R2.5.0.5*S0.2.3 +1*S1.2.3\n\
            ratio R2.5.0.5 by 21 at 5 : -1*R1.4.2.4*S0.2.3*S1.2.3 +1*S0.1.3*S1.2.3\n\
            cut -1 : +1*R1.4.2.4*S0.2.3*S1.2.3 -1*S0.1.3*S1.2.3\n\
            ratio R1.4.2.4 by 21 at 4 : 0\nend\nsample ",
        is_whole: false,
    },
    Case {
        program: b"point A point B inter X A B A B prove { collinear A B X }",
        steps: 100_000_000,
        answer: Answer::Is(Verdict::Impossible(1)),
        part: b"geolog 2\n| point A\n| point B\n| inter X A B A B\n| prove { collinear A B X }\n\
            condition 1 not_parallel A B A B\nstart : 0\nend\nverdict impossible 1\n",
        is_whole: true,
    },
    Case {
        program: SEGMENTS,
        steps: 100_000_000,
        answer: Answer::Is(Verdict::False(1)),
        part: b"\ncondition 1 different C D\nstart : +1*P2.3.2\n\
            coords : +2*x2^2 -4*x2*x3 +2*y2^2 -4*y2*y3 +2*x3^2 +2*y3^2\n\
            cut 2 : +1*x2^2 -2*x2*x3 +1*y2^2 -2*y2*y3 +1*x3^2 +1*y3^2\nend\n\
            goal 1 parallel A B C D\n",
        is_whole: false,
    },
    Case {
        program: SEGMENTS,
        steps: 100_000_000,
        answer: Answer::Is(Verdict::False(1)),
        part: b"\nsample x0=0 y0=0 x1=0 y1=1 x2=0 y2=0 x3=1 y3=0\nverdict false 1\n",
        is_whole: false,
    },
    Case {
        program: b"point A point B point C prove { collinear A B C }",
        steps: 100_000_000,
        answer: Answer::Is(Verdict::False(1)),
        part: b"geolog 2\n| point A\n| point B\n| point C\n| prove { collinear A B C }\n\
            goal 1 collinear A B C\nstart : +1*S0.1.2\n\
            coords : +1*x0*y1 -1*x0*y2 -1*y0*x1 +1*y0*x2 +1*x1*y2 -1*y1*x2\nend\n\
            sample x0=0 y0=0 x1=0 y1=1 x2=1 y2=0\nverdict false 1\n",
        is_whole: true,
    },
    Case {
        program: b"param r prove { equal { r } { 170141183460469231731687303715884105726 } }",
        steps: 100_000_000,
        answer: Answer::Is(Verdict::False(1)),
        part: b"\nsample t0=0\nverdict false 1\n",
        is_whole: false,
    },
    Case {
        program: b"param r prove { equal { r } { 170141183460469231731687303715884105727 } }",
        steps: 100_000_000,
        answer: Answer::Stops(ProveError::TooLarge {
            line: 5,
            which: Which::Norm,
        }),
        part: b"geolog 2\n| param r\n\
            | prove { equal { r } { 170141183460469231731687303715884105727 } }\n\
            goal 1 equal { r } { 170141183460469231731687303715884105727 }\n\
            stop too_large 5 norm\n",
        is_whole: true,
    },
    Case {
        program: INVERSES,
        steps: 28,
        answer: Answer::Is(Verdict::False(1)),
        part: b"\nstart : -1\ncut -1 : +1\nend\nsample t0=2\nverdict false 1\n",
        is_whole: false,
    },
    Case {
        program: INVERSES,
        steps: 27,
        answer: Answer::Stops(ProveError::Spent { line: 14 }),
        part: b"\nstart : -1\ncut -1 : +1\nend\nstop spent 14\n",
        is_whole: false,
    },
    Case {
        program: b"prove { equal { 1 } { 1 } }",
        steps: 100_000_000,
        answer: Answer::Is(Verdict::Proved),
        part: b"\nend\nsample\nverdict proved\n",
        is_whole: false,
    },
];

/// What the prover answers and writes, where the sink's calls with these numbers fail.
fn proved(alloc: Global, case: &Case, fails: &[u64]) -> Result<(Answer, MemSink), AllocError> {
    let mut sink = MemSink::new(alloc, Vec::from_slice(alloc, fails)?);
    if case.program.len() > 1000 {
        return Ok((Answer::NoProgram, sink));
    }
    let answer = match parse(alloc, case.program) {
        Ok(program) => match prove(alloc, &program, case.steps, &mut sink) {
            Ok(summary) => Answer::Is(summary.verdict),
            Err(error) => Answer::Stops(error),
        },
        Err(_) => Answer::NoProgram,
    };
    Ok((answer, sink))
}

/// Whether the log is that of the case.
fn is_log_of(case: &Case, log: &[u8]) -> bool {
    if case.is_whole {
        log == case.part
    } else {
        contains(log, case.part)
    }
}

/// Whether the part stands in the log.
fn contains(log: &[u8], part: &[u8]) -> bool {
    for i in 0..log.len() {
        if log[i..].starts_with(part) {
            return true;
        }
    }
    false
}

#[test]
fn logs_are_written(rt: HostRuntime) -> Result<(), Fail> {
    let alloc = rt.alloc();
    for case in &CASES {
        let (answer, sink) = proved(alloc, case, &[])?;
        assert_eq!(rt; answer, case.answer);
        assert!(rt; is_log_of(case, sink.bytes()));
    }
    Ok(())
}

#[test]
fn a_write_fails(rt: HostRuntime) -> Result<(), Fail> {
    let (answer, sink) = proved(rt.alloc(), &CASES[0], &[3])?;
    assert_eq!(rt; answer, Answer::Stops(ProveError::WriteFault));
    assert!(rt; sink.bytes() == b"geolog 2\n| point A\n".as_slice());
    Ok(())
}
