//! Runs of `cite`. The texts are those of the specification's rows, and of a plain reference.
use super::{FREE_POINTS_LOG, MIDPOINT_LOG, Row, expect_row};
use proof_printer::Status;
use std::process::Abort;
use std::test::Fail;

// A log, what follows it, how the run ends, and what it writes.
type Citation = (&'static [u8], &'static [u8], Status, &'static [u8]);

const ON_LINE_LOG: &[u8] =
    b"geolog 2\n| point A\n| point B\n| online X A B\n| prove { collinear A B X }\n\
    condition 1 different A B\nstart : +1*P0.1.0\n\
    coords : +2*x0^2 -4*x0*x1 +2*y0^2 -4*y0*y1 +2*x1^2 +2*y1^2\n\
    cut 2 : +1*x0^2 -2*x0*x1 +1*y0^2 -2*y0*y1 +1*x1^2 +1*y1^2\nend\n\
    goal 1 collinear A B X\nstart : +1*S0.1.2\npoint 2 : 0\nend\n\
    sample x0=0 y0=0 x1=0 y1=1 t0=0\nverdict proved\n";

const LINES_LOG: &[u8] =
    b"geolog 2\n| point A\n| point B\n| line a A B\n| parallel b A a\n| prove { collinear A B B }\n\
    condition 1 different A B\nstart : +1*P0.1.0\n\
    coords : +2*x0^2 -4*x0*x1 +2*y0^2 -4*y0*y1 +2*x1^2 +2*y1^2\n\
    cut 2 : +1*x0^2 -2*x0*x1 +1*y0^2 -2*y0*y1 +1*x1^2 +1*y1^2\nend\n\
    goal 1 collinear A B B\nstart : 0\nend\nsample x0=0 y0=0 x1=0 y1=1\nverdict proved\n";

const HALF: &[u8] =
    b"with P Q N\npoint P point Q pratio N Q Q P div { 1 } { 2 } prove { collinear P N Q }\n";

const THIRD: &[u8] =
    b"with P Q N\npoint P point Q pratio N Q Q P div { 1 } { 3 } prove { collinear P N Q }\n";

// Whether a run with these words over the log and what follows it ends so.
fn expect_citation(
    rt: &(impl AllocGlobal + Abort),
    words: &'static [&'static str],
    citation: &Citation,
) -> Result<(), Fail> {
    let (log, rest, status, held) = *citation;
    let mut input = Vec::from_slice(rt.alloc(), log)?;
    input.extend_from_slice(rest)?;
    let row = Row {
        words,
        ..Row::prove(b"", 64, status, held)
    };
    expect_row(rt, &row, input)
}

#[test]
fn statements_are_cited(rt: HostRuntime) -> Result<(), Fail> {
    const ASSUMED: &[u8] = b"with P Q N\npoint P point Q midpoint N P Q assume different P Q \
        prove { collinear P Q N }\n";
    let table: [Citation; 2] = [
        (MIDPOINT_LOG, HALF, Status::Done, b"cited collinear P N Q\n"),
        (
            ON_LINE_LOG,
            ASSUMED,
            Status::Done,
            b"cited collinear P Q N\n",
        ),
    ];
    for citation in table {
        expect_citation(&rt, &["cite"], &citation)?;
    }
    Ok(())
}

#[test]
fn what_cites_nothing_is_told(rt: HostRuntime) -> Result<(), Fail> {
    const UNLISTED: &[u8] =
        b"with P Q N\npoint P point Q midpoint N P Q prove { collinear P Q N }\n";
    let no_instance = |line: u64| Status::NotInstance { line };
    let rejected = |line: u64, reason: u32| Status::Rejected { line, reason };
    let syntax = |refusal: u32, place: u64| Status::Syntax { refusal, place };
    let table: [Citation; 8] = [
        (MIDPOINT_LOG, THIRD, no_instance(3), b"no instance 3\n"),
        (ON_LINE_LOG, UNLISTED, no_instance(3), b"no instance 3\n"),
        (
            FREE_POINTS_LOG,
            b"any rest",
            rejected(11, 33),
            b"rejected 11 33\n",
        ),
        (LINES_LOG, b"any rest", rejected(4, 34), b"rejected 4 34\n"),
        (b"", b"", rejected(1, 32), b"rejected 1 32\n"),
        (MIDPOINT_LOG, b"", syntax(15, 192), b"syntax 15 at 192\n"),
        (
            MIDPOINT_LOG,
            b"with P Q\npoint P point Q prove { collinear P Q Q }",
            syntax(15, 192),
            b"syntax 15 at 192\n",
        ),
        (
            MIDPOINT_LOG,
            b"with P Q\n@",
            syntax(1, 201),
            b"syntax 1 at 201\n",
        ),
    ];
    for citation in table {
        expect_citation(&rt, &["cite"], &citation)?;
    }
    Ok(())
}

#[test]
fn steps_of_the_log_and_of_the_chains_are_counted(rt: HostRuntime) -> Result<(), Fail> {
    let paid: Citation = (MIDPOINT_LOG, HALF, Status::Done, b"cited collinear P N Q\n");
    expect_citation(&rt, &["cite", "--steps", "116"], &paid)?;
    let spent: Citation = (
        MIDPOINT_LOG,
        HALF,
        Status::Spent { line: 16 },
        b"stop spent 16\n",
    );
    expect_citation(&rt, &["--steps=115", "cite"], &spent)
}
