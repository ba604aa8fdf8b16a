//! Calls over bytes, with buffers that are long enough or too short.
use crate::answers::Answer;
use crate::checking::geo_check;
use crate::printing::geo_text;
use crate::proving::geo_prove;
use std::alloc::{AllocError, Global};
use std::test::Fail;

const MIDPOINT: &[u8] = b"point A point B midpoint M A B prove { collinear A M B }";

const MIDPOINT_LOG: &[u8] =
    b"geolog 2\n| point A\n| point B\n| midpoint M A B\n| prove { collinear A M B }\n\
    goal 1 collinear A M B\nstart : -1*S0.1.2\ncut -1 : +1*S0.1.2\npoint 2 : 0\nend\n\
    sample x0=0 y0=0 x1=0 y1=0\nverdict proved\n";

// The log up to its last line.
const UNFINISHED: &[u8] =
    b"geolog 2\n| point A\n| point B\n| midpoint M A B\n| prove { collinear A M B }\n\
    goal 1 collinear A M B\nstart : -1*S0.1.2\ncut -1 : +1*S0.1.2\npoint 2 : 0\nend\n\
    sample x0=0 y0=0 x1=0 y1=0\n";

// The log with 23 steps.
const SPENT_LOG: &[u8] =
    b"geolog 2\n| point A\n| point B\n| midpoint M A B\n| prove { collinear A M B }\n\
    goal 1 collinear A M B\nstart : -1*S0.1.2\ncut -1 : +1*S0.1.2\nstop spent 9\n";

const CROSSING_LOG: &[u8] =
    b"geolog 2\n| point A\n| point B\n| inter X A B A B\n| prove { collinear A B X }\n\
    condition 1 not_parallel A B A B\nstart : 0\nend\nverdict impossible 1\n";

// A log of version 1.
const FREE_POINTS_LOG: &[u8] =
    b"geolog 1\n| point A\n| point B\n| point C\n| prove { collinear A B C }\n\
    goal 1 collinear A B C\nstart : +1*S0.1.2\n\
    coords : +1*x0*y1 -1*x0*y2 -1*y0*x1 +1*y0*x2 +1*x1*y2 -1*y1*x2\nend\n\
    sample x0=0 y0=0 x1=0 y1=1 x2=1 y2=0\nverdict false 1\n";

const TOO_LARGE: &[u8] =
    b"param r prove { equal { r } { 170141183460469231731687303715884105727 } }";

const TOO_LARGE_LOG: &[u8] = b"geolog 2\n| param r\n\
    | prove { equal { r } { 170141183460469231731687303715884105727 } }\n\
    goal 1 equal { r } { 170141183460469231731687303715884105727 }\nstop too_large 5 norm\n";

#[derive(Clone, Copy)]
enum Call {
    Prove,
    Check,
    Text,
}

/// A call with so many steps, the numbers that it answers, and all bytes of the buffer at its end.
#[derive(Clone, Copy)]
struct Case {
    call: Call,
    input: &'static [u8],
    steps: u64,
    status: u32,
    answer: Answer,
    held: &'static [u8],
}

impl Case {
    const fn new(
        call: Call,
        input: &'static [u8],
        status: u32,
        answer: (u64, u64, u64),
        held: &'static [u8],
    ) -> Case {
        let (length, at, reason) = answer;
        Case {
            call,
            input,
            steps: 100_000_000,
            status,
            answer: Answer { length, at, reason },
            held,
        }
    }
}

/// Whether the call answers so, and leaves a buffer of `#` so.
fn is_answered(alloc: Global, case: &Case) -> Result<bool, AllocError> {
    let mut buffer = vec![in alloc; b'#'; case.held.len()]?;
    let mut answer = Answer {
        length: 7,
        at: 7,
        reason: 7,
    };
    let (input, steps) = (case.input, case.steps);
    let status = match case.call {
        Call::Prove => geo_prove(alloc, input, steps, &mut buffer, &mut answer),
        Call::Check => geo_check(alloc, input, steps, &mut buffer, &mut answer),
        Call::Text => geo_text(alloc, input, steps, &mut buffer, &mut answer),
    };
    Ok(status == case.status && answer == case.answer && buffer.as_slice() == case.held)
}

#[test]
fn programs_are_proved(rt: HostRuntime) -> Result<(), Fail> {
    let cases = [
        Case::new(Call::Prove, MIDPOINT, 0, (192, 0, 0), MIDPOINT_LOG),
        Case::new(Call::Prove, MIDPOINT, 0, (192, 0, 0), b"geolog 2\n| po"),
        Case::new(Call::Prove, MIDPOINT, 0, (192, 0, 0), b""),
        Case {
            steps: 23,
            ..Case::new(Call::Prove, MIDPOINT, 7, (147, 9, 0), SPENT_LOG)
        },
        Case::new(Call::Prove, TOO_LARGE, 6, (172, 5, 1), TOO_LARGE_LOG),
        Case::new(Call::Prove, b"point A\npoint", 4, (0, 13, 4), b"####"),
    ];
    for case in &cases {
        assert!(rt; is_answered(rt.alloc(), case)?);
    }
    Ok(())
}

#[test]
fn logs_are_checked(rt: HostRuntime) -> Result<(), Fail> {
    let accepted =
        b"point A\npoint B\nmidpoint M A B\nprove { collinear A M B }\naccepted proved\n##";
    let impossible = b"point A\npoint B\ninter X A B A B\nprove { collinear A B X }\n\
        condition 1 not_parallel A B A B\naccepted impossible 1\n";
    let cases = [
        Case::new(Call::Check, MIDPOINT_LOG, 0, (73, 0, 0), accepted),
        Case::new(
            Call::Check,
            FREE_POINTS_LOG,
            1,
            (67, 1, 0),
            b"point A\npoint B\npoint C\n",
        ),
        Case::new(Call::Check, CROSSING_LOG, 2, (113, 1, 0), impossible),
        Case::new(Call::Check, UNFINISHED, 11, (0, 12, 32), b"##"),
        Case {
            steps: 23,
            ..Case::new(Call::Check, MIDPOINT_LOG, 7, (0, 9, 0), b"##")
        },
    ];
    for case in &cases {
        assert!(rt; is_answered(rt.alloc(), case)?);
    }
    Ok(())
}

#[test]
fn logs_are_printed(rt: HostRuntime) -> Result<(), Fail> {
    let proof = b"point A\npoint B\nmidpoint M A B\nprove { collinear A M B }\n\
        Goal 1: collinear A M B\n  -1*S(A,B,M)\n  divide by -1: +1*S(A,B,M)\n\
        \x20 S(A,B,M) = (0) / (+2)\n  gives 0\n  zero\nAt x(A)=0 y(A)=0 x(B)=0 y(B)=0\nProved.\n";
    let cases = [
        Case::new(Call::Text, MIDPOINT_LOG, 13, (203, 0, 0), proof),
        Case::new(Call::Text, MIDPOINT, 11, (0, 1, 21), b"##"),
    ];
    for case in &cases {
        assert!(rt; is_answered(rt.alloc(), case)?);
    }
    Ok(())
}

/// The status and the answer of a program of so many spaces.
fn of_spaces(alloc: Global, count: usize) -> Result<(u32, Answer), AllocError> {
    let spaces = vec![in alloc; b' '; count]?;
    let mut answer = Answer {
        length: 7,
        at: 7,
        reason: 7,
    };
    let status = geo_prove(alloc, &spaces, 9, &mut [], &mut answer);
    Ok((status, answer))
}

#[test]
fn programs_have_a_limit(rt: HostRuntime) -> Result<(), Fail> {
    let nothing = Answer {
        length: 0,
        at: 0,
        reason: 0,
    };
    let end = Answer {
        length: 0,
        at: 1_048_576,
        reason: 11,
    };
    assert!(rt; of_spaces(rt.alloc(), 1_048_577)? == (12, nothing));
    assert!(rt; of_spaces(rt.alloc(), 1_048_576)? == (4, end));
    Ok(())
}
