//! Runs of `discover`. The texts are those of a plain reference.
use super::{CROSSING, MIDPOINT, Row, expect_row, expect_rows};
use proof_printer::Status;
use std::test::Fail;

const FIRST_RELATION: &[u8] =
    b"relation collinear A B M\ngeolog 2\n| point A\n| point B\n| midpoint M A B\n\
    | prove { collinear A B M }\ngoal 1 collinear A B M\nstart : +1*S0.1.2\npoint 2 : 0\nend\n\
    sample x0=0 y0=0 x1=0 y1=0\nverdict proved\n";

const TWO_POINTS: &[u8] = b"point A point B prove { identical A B }";

const THREE_POINTS: &[u8] = b"point A point B point C prove { equal { sratio A B A C } { 1 } }";

const ALL_OPEN: &[u8] =
    b"open collinear A B C\nopen perpendicular A B A C\nopen perpendicular A B B C\n\
    open perpendicular A C B C\nopen same_length A B A C\nopen same_length A B B C\n\
    open same_length A C B C\nrelations 0 open 7\n";

// A run of `discover` over a program.
const fn discover(input: &'static [u8], status: Status, held: &'static [u8]) -> Row {
    Row {
        words: &["discover"],
        ..Row::prove(input, 64, status, held)
    }
}

#[test]
fn figures_are_searched(rt: HostRuntime) -> Result<(), Fail> {
    let none: &[u8] = b"relations 0 open 0\n";
    let rows = [
        discover(TWO_POINTS, Status::Done, none),
        discover(THREE_POINTS, Status::Done, none),
        discover(CROSSING, Status::Impossible(1), b"impossible 1\n"),
        Row {
            words: &["discover", "--steps", "2"],
            ..discover(THREE_POINTS, Status::Spent { line: 8 }, ALL_OPEN)
        },
        Row {
            held: None,
            ..discover(MIDPOINT, Status::Done, b"")
        },
    ];
    expect_rows(&rt, &rows)
}

#[test]
fn faults_and_refusals_are_told(rt: HostRuntime) -> Result<(), Fail> {
    let syntax = Status::Syntax {
        refusal: 11,
        place: 8,
    };
    let rows = [
        discover(b"point A\n", syntax, b"syntax 11 at 8\n"),
        Row {
            failing_writes: &[13],
            ..discover(MIDPOINT, Status::WriteFault, FIRST_RELATION)
        },
        Row {
            failing_reads: &[2],
            piece: 16,
            ..discover(MIDPOINT, Status::ReadFault, b"")
        },
    ];
    expect_rows(&rt, &rows)?;
    let long = discover(b"", Status::TooLong, b"too long\n");
    expect_row(&rt, &long, vec![in rt.alloc(); b' '; 1_048_577]?)
}
