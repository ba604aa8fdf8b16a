//! The starts of the statements of programs. What is expected was written by a plain reference,
//! which is no part of this
//! repository.

use crate::problems::problem_of;
use elim_apply::{ApplyError, start_uncounted};
use geo_base::Budget;
use geo_poly::{Poly, Which};
use proof_log::{Line, read_line};
use std::alloc::Global;
use std::test::Fail;

// A text that spells a program, the charge of the start of its statement, and the line of this
// start.
const STARTS: &[(&str, u64, &str)] = &[
    (
        "point A point B midpoint M A B prove { collinear A M B }",
        0,
        "start : -1*S0.1.2",
    ),
    (
        "point A point B point C point P inter D B C A P inter E C A B P inter F A B C P \
         prove { equal { mult { mult { sratio A F F B } { sratio B D D C } } { sratio C E E \
         A } } { 1 } }",
        7,
        "start : -1*R0.6.1.6*R1.4.2.4*R2.5.0.5 -1",
    ),
    (
        "point A point B point C prove { equal { signed_area3 A B C } { 1 } }",
        3,
        "start : +1*S0.1.2 -1",
    ),
    (
        "param r prove { equal { div { 1 } { r } } { div { 1 } { sub { r } { 1 } } } }",
        13,
        "start : -1",
    ),
    (
        "param r prove { equal { r } { 170141183460469231731687303715884105726 } }",
        3,
        "start : +1*t0 -170141183460469231731687303715884105726",
    ),
    (
        "point A point B point C point D prove { harmonic A B C D }",
        3,
        "start : -1*R0.2.1.2 -1*R0.3.1.3",
    ),
    (
        "point A point B point C point D prove { concyclic A B C D }",
        7,
        "start : -1*S0.2.3*P2.1.3 +1*S1.2.3*P2.0.3",
    ),
    (
        "point A point B point M prove { midpoint M A B }",
        11,
        "start : -1*P0.1.0 +2*P0.2.0 +2*P1.2.1",
    ),
    (
        "point A point B point C point D \
         prove { equal { sum { sratio A B B A } { sratio A A C D } } { sratio B A D C } }",
        7,
        "start : -1*R0.1.2.3 -1",
    ),
    (
        "param r param s prove { equal { neg { div { sum { r } { s } } { 2 } } } \
         { div { mult { r } { s } } { sum { 1 } { s } } } }",
        21,
        "start : -3*t0*t1 -1*t0 -1*t1^2 -1*t1",
    ),
];

// The start of the statement that a text proves, with so many charges.
fn start_of(alloc: Global, text: &str, left: u64) -> Result<Poly, ApplyError> {
    let problem = problem_of(alloc, text).map_err(|_| ApplyError::NoMemory)?;
    let goal = problem.goals.items.last().ok_or(ApplyError::NoRow)?;
    if goal.term.0 >= problem.steps.look().len() {
        return Err(ApplyError::NoRow);
    }
    start_uncounted(alloc, &problem.steps, goal.term, &mut Budget { left })
}

// Whether the line is that of a start with this polynomial.
fn is_start(alloc: Global, line: &str, poly: &Poly) -> bool {
    match read_line(alloc, line.as_bytes()) {
        Ok(Line::Start(other)) => other.same(poly),
        _ => false,
    }
}

#[test]
fn starts_are_those_of_the_reference(rt: HostRuntime) -> Result<(), Fail> {
    for (program, charge, line) in STARTS {
        let Ok(poly) = start_of(rt.alloc(), program, *charge) else {
            assert!(rt; false, "{program}");
            return Ok(());
        };
        assert!(rt; is_start(rt.alloc(), line, &poly), "{program}");
        if *charge > 0 {
            let stop = start_of(rt.alloc(), program, *charge - 1).err();
            assert_eq!(rt; stop, Some(ApplyError::Spent), "{program}");
        }
    }
    Ok(())
}

#[test]
fn weights_and_degrees_have_limits(rt: HostRuntime) -> Result<(), Fail> {
    let heavy = "param r prove { equal { r } { 170141183460469231731687303715884105727 } }";
    let stop = start_of(rt.alloc(), heavy, 3).err();
    assert_eq!(rt; stop, Some(ApplyError::TooLarge(Which::Norm)));
    let mut power = String::from_str(rt.alloc(), "r")?;
    for _ in 0..16 {
        power = format!(in rt.alloc(); "mult{{{power}}}{{{power}}}")?;
    }
    let steep = format!(in rt.alloc(); "param r prove{{equal{{{power}}}{{0}}}}")?;
    let stop = start_of(rt.alloc(), steep.as_str(), 1_000_000).err();
    assert_eq!(rt; stop, Some(ApplyError::TooLarge(Which::Degree)));
    Ok(())
}
