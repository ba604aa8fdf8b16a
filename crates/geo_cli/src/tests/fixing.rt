//! Runs of `fixed`. The texts are those of a plain reference.
use super::{CROSSING, FREE_POINTS, MIDPOINT, QUOTIENTS, Row, TOO_LARGE, expect_row, expect_rows};
use geo_poly::Which;
use proof_printer::Status;
use std::test::Fail;

const KNOWN_PARAMETER: &[u8] =
    b"param r point A point B point C pratio X A B C div { 1 } { r } prove { equal { mult { r } { \
    signed_area3 A B X } } { mult { r } { signed_area3 A B C } } }";

const LARGE: Status = Status::TooLarge {
    line: 5,
    which: Which::Norm,
};

const EMPTY: Status = Status::Syntax {
    refusal: 11,
    place: 8,
};

// A run of `fixed` over a program.
const fn fixed(input: &'static [u8], status: Status, held: &'static [u8]) -> Row {
    Row {
        words: &["fixed"],
        ..Row::prove(input, 64, status, held)
    }
}

#[test]
fn verdicts_are_told(rt: HostRuntime) -> Result<(), Fail> {
    let rows = [
        fixed(MIDPOINT, Status::Proved, b"fixed proved\n"),
        fixed(FREE_POINTS, Status::False(1), b"fixed false 1\n"),
        fixed(CROSSING, Status::Impossible(1), b"fixed impossible 1\n"),
        fixed(KNOWN_PARAMETER, Status::False(1), b"fixed false 1\n"),
        fixed(QUOTIENTS, Status::False(1), b"fixed false 1\n"),
    ];
    expect_rows(&rt, &rows)
}

#[test]
fn stops_and_refusals_are_told(rt: HostRuntime) -> Result<(), Fail> {
    let rows = [
        fixed(TOO_LARGE, LARGE, b"stop too_large 5 norm\n"),
        fixed(b"point A\n", EMPTY, b"syntax 11 at 8\n"),
        Row {
            words: &["fixed", "--steps=24"],
            ..fixed(MIDPOINT, Status::Proved, b"fixed proved\n")
        },
        Row {
            words: &["--steps=23", "fixed"],
            ..fixed(MIDPOINT, Status::Spent { line: 9 }, b"stop spent 9\n")
        },
        Row {
            failing_writes: &[1],
            ..fixed(MIDPOINT, Status::WriteFault, b"")
        },
        Row {
            failing_reads: &[2],
            piece: 16,
            ..fixed(MIDPOINT, Status::ReadFault, b"")
        },
    ];
    expect_rows(&rt, &rows)?;
    let long = fixed(b"", Status::TooLong, b"too long\n");
    expect_row(&rt, &long, vec![in rt.alloc(); b' '; 1_048_577]?)
}
