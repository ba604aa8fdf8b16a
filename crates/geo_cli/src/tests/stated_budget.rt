//! The costliest programs of the first form that a search found: one whose statement fails, and a
//! theorem.
use super::{Row, expect_rows};
use proof_printer::Status;
use std::test::Fail;

const MILLION: &[&str] = &["prove", "--steps", "1000000"];

// Its log spends 5,076 steps.
const COSTLIEST: &[u8] =
    b"point P0 point P1 point P2 point P3 point P4 point P5 point P6 point P7 point P8 \
    pratio P9 P4 P5 P8 div { -9 } { 5 } pratio P10 P3 P2 P5 div { 5 } { 9 } pratio \
    P11 P7 P9 P1 div { -7 } { 5 } pratio P12 P11 P0 P4 div { 8 } { 5 } pratio P13 P8 \
    P12 P10 div { 5 } { 8 } pratio P14 P11 P5 P10 div { -8 } { 5 } pratio P15 P12 P6 \
    P7 div { -7 } { 5 } prove { collinear P13 P14 P15 }";

// Its log spends 2,262 steps.
const COSTLIEST_THEOREM: &[u8] =
    b"point P0 point P1 point P2 pratio P3 P0 P0 P1 div { 2 } { 8 } pratio P4 P1 P1 P0 \
    div { 6 } { 8 } pratio P5 P3 P2 P0 div { -8 } { 9 } pratio P6 P3 P4 P5 div { -8 \
    } { 8 } pratio P7 P0 P5 P2 div { -7 } { 7 } pratio P8 P1 P4 P5 div { 5 } { 5 } \
    pratio P9 P4 P6 P8 div { -8 } { 8 } pratio P10 P0 P9 P8 div { 5 } { 9 } pratio \
    P11 P2 P9 P1 div { -9 } { 7 } pratio P12 P6 P10 P7 div { -8 } { 9 } pratio P13 \
    P11 P10 P8 div { -9 } { 9 } pratio P14 P11 P5 P12 div { 7 } { 8 } pratio P15 P14 \
    P4 P3 div { 9 } { 8 } prove { collinear P13 P14 P15 }";

// A run of `prove` with these words, whose log is not compared.
fn run_of(words: &'static [&'static str], input: &'static [u8], status: Status) -> Row {
    Row {
        words,
        held: None,
        ..Row::prove(input, 4096, status, b"")
    }
}

#[test]
fn a_budget_is_enough(rt: HostRuntime) -> Result<(), Fail> {
    let rows = [
        run_of(MILLION, COSTLIEST, Status::False(1)),
        run_of(&["prove", "--steps", "5076"], COSTLIEST, Status::False(1)),
        run_of(
            &["prove", "--steps", "5075"],
            COSTLIEST,
            Status::Spent { line: 34 },
        ),
        run_of(MILLION, COSTLIEST_THEOREM, Status::Proved),
        run_of(
            &["prove", "--steps", "2262"],
            COSTLIEST_THEOREM,
            Status::Proved,
        ),
        run_of(
            &["prove", "--steps", "2261"],
            COSTLIEST_THEOREM,
            Status::Spent { line: 41 },
        ),
    ];
    expect_rows(&rt, &rows)
}
