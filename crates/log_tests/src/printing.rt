//! Worked proofs. What is expected was written by a plain reference, and the first one by hand.

use crate::logs;
use geo_base::Text;
use log_checker::CheckError;
use proof_printer::text;
use std::alloc::{AllocError, Global};
use std::test::Fail;

/// A log and its readable proof, line by line.
#[derive(Drop)]
struct Worked {
    log: &'static [&'static str],
    proof: &'static [&'static str],
}

/// The middle of two points lies on their line.
const MIDDLE: Worked = Worked {
    log: logs::MIDDLE,
    proof: &[
        "point A",
        "point B",
        "midpoint M A B",
        "prove { collinear A M B }",
        "Goal 1: collinear A M B",
        "  -1*S(A,B,M)",
        "  divide by -1: +1*S(A,B,M)",
        "  S(A,B,M) = (0) / (+2)",
        "  gives 0",
        "  zero",
        "At x(A)=0 y(A)=0 x(B)=0 y(B)=0",
        "Proved.",
    ],
};

/// Two conditions on one number, and a goal that fails.
const NUMBERS: Worked = Worked {
    log: logs::NUMBERS,
    proof: &[
        "param r",
        "prove { equal { div { 1 } { r } } { div { 1 } { sub { r } { 1 } } } }",
        "Condition 1: nonzero { r }",
        "  +1*r",
        "  not zero",
        "Condition 2: nonzero { sub { r } { 1 } }",
        "  +1*r -1",
        "  not zero",
        "Goal 1: equal { div { 1 } { r } } { div { 1 } { sub { r } { 1 } } }",
        "  -1",
        "  divide by -1: +1",
        "  not zero",
        "At r=2",
        "False: goal 1 fails there.",
    ],
};

/// A crossing of a line with itself.
const ITSELF: Worked = Worked {
    log: logs::ITSELF,
    proof: &[
        "point A",
        "point B",
        "inter X A B A B",
        "prove { collinear A B X }",
        "Condition 1: not_parallel A B A B",
        "  0",
        "  zero",
        "Impossible: condition 1 is never met.",
    ],
};

/// A triangle over a diameter: hidden points, a hidden parameter, and squares of denominators.
const CIRCLE: Worked = Worked {
    log: &[
        "geolog 1",
        "| point O",
        "| point A",
        "| symmetric B A O",
        "| oncircle X O A",
        "| prove { perpendicular A X X B }",
        "condition 1 different O A",
        "start : +1*P0.1.0",
        "coords : +2*x0^2 -4*x0*x1 +2*y0^2 -4*y0*y1 +2*x1^2 +2*y1^2",
        "cut 2 : +1*x0^2 -2*x0*x1 +1*y0^2 -2*y0*y1 +1*x1^2 +1*y1^2",
        "end",
        "condition 2 not_collinear O A X",
        "start : +1*S0.1.5",
        "point 5 : +2*S0.1.4",
        "cut 2 : +1*S0.1.4",
        "point 4 : +1*S0.1.3*P0.1.3",
        "point 3 : +4*P0.1.0^2*t0",
        "cut 4*P0.1.0^2 : +1*t0",
        "end",
        "goal 1 perpendicular A X X B",
        "start : +1*P1.5.2",
        "point 5 : +2*P1.4.1 +2*P1.4.2",
        "cut 2 : +1*P1.4.1 +1*P1.4.2",
        "point 4 : -2*P0.1.3*P0.3.1 +1*P0.1.3*P1.3.1 +1*P0.1.3*P1.3.2",
        "cut -1 : +2*P0.1.3*P0.3.1 -1*P0.1.3*P1.3.1 -1*P0.1.3*P1.3.2",
        "point 3 : +256*S0.1.2*P0.1.0*t0 -64*P0.1.0^2 -64*P0.1.0*P1.0.2",
        "cut 64*P0.1.0 : +4*S0.1.2*t0 -1*P0.1.0 -1*P1.0.2",
        "point 2 : 0",
        "end",
        "sample x0=0 y0=0 x1=0 y1=1 t0=1",
        "verdict proved",
    ],
    proof: &[
        "point O",
        "point A",
        "symmetric B A O",
        "oncircle X O A",
        "prove { perpendicular A X X B }",
        "Condition 1: different O A",
        "  +1*P(O,A,O)",
        "  P(O,A,O) = (+2*x(O)^2 -4*x(O)*x(A) +2*y(O)^2 -4*y(O)*y(A) +2*x(A)^2 +2*y(A)^2)",
        "  gives +2*x(O)^2 -4*x(O)*x(A) +2*y(O)^2 -4*y(O)*y(A) +2*x(A)^2 +2*y(A)^2",
        "  divide by 2: +1*x(O)^2 -2*x(O)*x(A) +1*y(O)^2 -2*y(O)*y(A) +1*x(A)^2 +1*y(A)^2",
        "  not zero",
        "Condition 2: not_collinear O A X",
        "  +1*S(O,A,X)",
        "  S(O,A,X) = (+2*S(O,A,#4)) / (+1)",
        "  gives +2*S(O,A,#4)",
        "  divide by 2: +1*S(O,A,#4)",
        "  S(O,A,#4) = (+1*S(O,A,#3)*P(O,A,#3)) / (+1*P(A,#3,A))",
        "  gives +1*S(O,A,#3)*P(O,A,#3)",
        "  S(O,A,#3) = (+1*P(O,A,O)*#t0) / (+4)",
        "  P(O,A,#3) = (+4*P(O,A,O)) / (+4)",
        "  gives +4*P(O,A,O)^2*#t0",
        "  divide by 4*P(O,A,O)^2: +1*#t0",
        "  not zero",
        "Goal 1: perpendicular A X X B",
        "  +1*P(A,X,B)",
        "  P(A,X,B) = (+2*P(A,#4,A) +2*P(A,#4,B)) / (+1)^2",
        "  gives +2*P(A,#4,A) +2*P(A,#4,B)",
        "  divide by 2: +1*P(A,#4,A) +1*P(A,#4,B)",
        "  P(A,#4,A) = (-1*P(O,A,#3)*P(O,#3,A) +1*P(O,A,#3)*P(A,#3,A)) / (+1*P(A,#3,A))",
        "  P(A,#4,B) = (-1*P(O,A,#3)*P(O,#3,A) +1*P(O,A,#3)*P(A,#3,B)) / (+1*P(A,#3,A))",
        "  gives -2*P(O,A,#3)*P(O,#3,A) +1*P(O,A,#3)*P(A,#3,A) +1*P(O,A,#3)*P(A,#3,B)",
        "  divide by -1: +2*P(O,A,#3)*P(O,#3,A) -1*P(O,A,#3)*P(A,#3,A) -1*P(O,A,#3)*P(A,#3,B)",
        "  P(O,A,#3) = (+4*P(O,A,O)) / (+4)",
        "  P(O,#3,A) = (+16*P(O,A,O)*#t0^2) / (+4)^2",
        "  P(A,#3,A) = (+16*P(O,A,O)*#t0^2 +16*P(O,A,O)) / (+4)^2",
        "  P(A,#3,B) = (-64*S(O,A,B)*#t0 +16*P(O,A,O)*#t0^2 +16*P(A,O,B)) / (+4)^2",
        "  gives +256*S(O,A,B)*P(O,A,O)*#t0 -64*P(O,A,O)^2 -64*P(O,A,O)*P(A,O,B)",
        "  divide by 64*P(O,A,O): +4*S(O,A,B)*#t0 -1*P(O,A,O) -1*P(A,O,B)",
        "  S(O,A,B) = (0) / (+1)",
        "  P(A,O,B) = (-1*P(O,A,O)) / (+1)",
        "  gives 0",
        "  zero",
        "At x(O)=0 y(O)=0 x(A)=0 y(A)=1 #t0=1",
        "Proved.",
    ],
};

/// The centroid by weights, over a hidden point, in version 1.
const HIDDEN: Worked = Worked {
    log: logs::HIDDEN,
    proof: &[
        "point A",
        "point B",
        "point C",
        "weights X A B C div { 1 } { 3 } div { 1 } { 3 }",
        "prove { equal { signed_area3 X B C } { signed_area3 X C A } }",
        "Goal 1: equal { signed_area3 X B C } { signed_area3 X C A }",
        "  +1*S(A,C,X) +1*S(B,C,X)",
        "  S(A,C,X) = (+3*S(A,C,#3)) / (+3)",
        "  S(B,C,X) = (-1*S(A,B,C) +3*S(B,C,#3)) / (+3)",
        "  gives -1*S(A,B,C) +3*S(A,C,#3) +3*S(B,C,#3)",
        "  divide by -1: +1*S(A,B,C) -3*S(A,C,#3) -3*S(B,C,#3)",
        "  S(A,C,#3) = (-1*S(A,B,C)) / (+3)",
        "  S(B,C,#3) = (+2*S(A,B,C)) / (+3)",
        "  gives 0",
        "  zero",
        "At x(A)=0 y(A)=0 x(B)=0 y(B)=0 x(C)=0 y(C)=0",
        "Proved.",
    ],
};

/// The same by a step of its own, in version 2.
const WEIGHTED: Worked = Worked {
    log: logs::WEIGHTED,
    proof: &[
        "point A",
        "point B",
        "point C",
        "weights X A B C div { 1 } { 3 } div { 1 } { 3 }",
        "prove { equal { signed_area3 X B C } { signed_area3 X C A } }",
        "Goal 1: equal { signed_area3 X B C } { signed_area3 X C A }",
        "  +1*S(A,C,X) +1*S(B,C,X)",
        "  S(A,C,X) = (-3*S(A,B,C)) / (+9)",
        "  S(B,C,X) = (+3*S(A,B,C)) / (+9)",
        "  gives 0",
        "  zero",
        "At x(A)=0 y(A)=0 x(B)=0 y(B)=0 x(C)=0 y(C)=0",
        "Proved.",
    ],
};

/// The lines, each with its line feed.
fn joined(alloc: Global, lines: &[&str]) -> Result<Vec<u8>, AllocError> {
    let mut bytes = Vec::new(alloc);
    for line in lines {
        bytes.extend_from_slice(line.as_bytes())?;
        bytes.push(b'\n')?;
    }
    Ok(bytes)
}

/// Whether the readable proof of the log is this one.
fn prints(answer: Result<Text, CheckError>, proof: &[u8]) -> bool {
    match answer {
        Ok(text) => text.bytes.as_slice() == proof,
        Err(_) => false,
    }
}

/// Whether the log is refused so.
fn refuses(answer: Result<Text, CheckError>, error: CheckError) -> bool {
    match answer {
        Ok(_) => false,
        Err(other) => other == error,
    }
}

#[test]
fn logs_are_printed(rt: HostRuntime) -> Result<(), Fail> {
    for worked in [MIDDLE, NUMBERS, ITSELF, CIRCLE, HIDDEN, WEIGHTED] {
        let log = joined(rt.alloc(), worked.log)?;
        let proof = joined(rt.alloc(), worked.proof)?;
        assert!(rt; log.len() <= 67_108_864);
        assert!(rt; prints(text(rt.alloc(), &log, 100_000_000), &proof));
    }
    Ok(())
}

#[test]
fn logs_are_checked_first(rt: HostRuntime) -> Result<(), Fail> {
    let log = joined(rt.alloc(), MIDDLE.log)?;
    assert!(rt; log.len() <= 67_108_864);
    assert!(rt; refuses(text(rt.alloc(), &log, 23), CheckError::Spent { line: 9 }));
    Ok(())
}
