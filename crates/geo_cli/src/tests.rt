//! Runs over sources and sinks in memory.
use crate::run::run;
use geo_base::{MemSink, MemSource};
use geo_poly::Which;
use proof_printer::Status;
use std::process::Abort;
use std::test::Fail;

mod checking;
mod citing;
mod discovering;
mod fixing;
mod placing;
mod printing;
mod stated_budget;

const USAGE: &[u8] = b"usage: geo_cli COMMAND [NUMBER] [--steps N]\n";

const MIDPOINT: &[u8] = b"point A point B midpoint M A B prove { collinear A M B }";

const MIDPOINT_LOG: &[u8] =
    b"geolog 2\n| point A\n| point B\n| midpoint M A B\n| prove { collinear A M B }\n\
    goal 1 collinear A M B\nstart : -1*S0.1.2\ncut -1 : +1*S0.1.2\npoint 2 : 0\nend\n\
    sample x0=0 y0=0 x1=0 y1=0\nverdict proved\n";

const MIDPOINT_STOP: &[u8] =
    b"geolog 2\n| point A\n| point B\n| midpoint M A B\n| prove { collinear A M B }\n\
    goal 1 collinear A M B\nstart : -1*S0.1.2\ncut -1 : +1*S0.1.2\nstop spent 9\n";

// The same program with comments and sketch numbers.
const SKETCHED: &[u8] =
    b"point A 20 10% a comment\npoint B -7 007 midpoint M A B prove{collinear A M B}% the end";

const CROSSING: &[u8] = b"point A point B inter X A B A B prove { collinear A B X }";

const CROSSING_LOG: &[u8] =
    b"geolog 2\n| point A\n| point B\n| inter X A B A B\n| prove { collinear A B X }\n\
    condition 1 not_parallel A B A B\nstart : 0\nend\nverdict impossible 1\n";

const FREE_POINTS: &[u8] = b"point A point B point C prove { collinear A B C }";

const FREE_POINTS_LOG: &[u8] =
    b"geolog 2\n| point A\n| point B\n| point C\n| prove { collinear A B C }\n\
    goal 1 collinear A B C\nstart : +1*S0.1.2\n\
    coords : +1*x0*y1 -1*x0*y2 -1*y0*x1 +1*y0*x2 +1*x1*y2 -1*y1*x2\nend\n\
    sample x0=0 y0=0 x1=0 y1=1 x2=1 y2=0\nverdict false 1\n";

const NUMBERS: &[u8] = b"prove { equal { 1 } { 1 } }";

const NUMBERS_LOG: &[u8] =
    b"geolog 2\n| prove { equal { 1 } { 1 } }\ngoal 1 equal { 1 } { 1 }\nstart : 0\nend\n\
    sample\nverdict proved\n";

const QUOTIENTS: &[u8] =
    b"param r prove { equal { div { 1 } { r } } { div { 1 } { sub { r } { 1 } } } }";

const LARGEST: &[u8] = b"param r prove { equal { r } { 170141183460469231731687303715884105726 } }";

const TOO_LARGE: &[u8] =
    b"param r prove { equal { r } { 170141183460469231731687303715884105727 } }";

const TOO_LARGE_LOG: &[u8] = b"geolog 2\n| param r\n\
    | prove { equal { r } { 170141183460469231731687303715884105727 } }\n\
    goal 1 equal { r } { 170141183460469231731687303715884105727 }\nstop too_large 5 norm\n";

// Theorems, and statements that fail or are never met.
const DECIDED: [(&[u8], Status); 12] = [
    (
        b"point A point B point C point P inter D B C A P inter E C A B P inter F A B C P \
        prove { equal { mult { mult { sratio A F F B } { sratio B D D C } } { sratio C E E \
        A } } { 1 } }",
        Status::Proved,
    ),
    (
        b"point A point B point C online D B C online E C A inter F A B D E prove { equal { \
        mult { mult { sratio A F F B } { sratio B D D C } } { sratio C E E A } } { 1 } }",
        Status::False(4),
    ),
    (
        b"point A 20 20 % a triangle\npoint B 80 20 point C 40 60 circumcenter O A B C \
        orthocenter H A B C centroid G A B C prove { collinear O H G }",
        Status::Proved,
    ),
    (
        b"point A point B point C foot D A B C foot E B A C inter H A D B E prove { \
        perpendicular C H A B }",
        Status::Proved,
    ),
    (
        b"point A point B point A1 point B1 online C A B online C1 A1 B1 inter X A B1 A1 B \
        inter Y A C1 A1 C inter Z B C1 B1 C prove { collinear X Y Z }",
        Status::Proved,
    ),
    (
        b"point O point A symmetric B A O oncircle X O A prove { perpendicular A X X B }",
        Status::Proved,
    ),
    (
        b"point A point B point C point D prove { equal { sratio A B C D } { 1 } }",
        Status::False(1),
    ),
    (
        b"point A point B point C prove { equal { sratio A B C C } { 1 } }",
        Status::Impossible(1),
    ),
    (
        b"point A point B point C prove { equal { signed_area3 A B C } { 1 } }",
        Status::False(1),
    ),
    (LARGEST, Status::False(1)),
    (QUOTIENTS, Status::False(1)),
    (
        b"point A point B line a A B perp b A a parallel c B b med d A B intersec M a d prove \
        { midpoint M A B }",
        Status::Proved,
    ),
];

// Texts that spell no program, with the refusal, its place and the line that tells both.
const REFUSED: [(&[u8], u32, u64, &[u8]); 12] = [
    (b"", 11, 0, b"syntax 11 at 0\n"),
    (b"point A\n", 11, 8, b"syntax 11 at 8\n"),
    (b"point A @", 1, 8, b"syntax 1 at 8\n"),
    (
        b"param r prove { equal { r } { 170141183460469231731687303715884105728 } }",
        2,
        30,
        b"syntax 2 at 30\n",
    ),
    (
        b"point AAAAAAAAAAAAAAAAAAAAAAAAAAAAAAAAAAAAAAAAAAAAAAAAAAAAAAAAAAAAAAAAA",
        3,
        6,
        b"syntax 3 at 6\n",
    ),
    (b"point A B", 4, 8, b"syntax 4 at 8\n"),
    (b"prove { collinear A B C }", 5, 18, b"syntax 5 at 18\n"),
    (b"point A point A", 6, 14, b"syntax 6 at 14\n"),
    (b"param r midpoint M r r", 7, 19, b"syntax 7 at 19\n"),
    (
        b"point A point B lratio X A B sratio A B A B",
        8,
        29,
        b"syntax 8 at 29\n",
    ),
    (
        b"prove { equal { 1 } { 1 } } point A",
        12,
        28,
        b"syntax 12 at 28\n",
    ),
    (b"point A 1", 4, 9, b"syntax 4 at 9\n"),
];

// A run, and how it is to end.
#[derive(Drop)]
struct Row {
    words: &'static [&'static str],
    input: &'static [u8],
    // the most bytes of one read, and the reads and writes that fail
    piece: usize,
    failing_reads: &'static [u64],
    failing_writes: &'static [u64],
    status: Status,
    // what the sink holds then, where that is compared
    held: Option<&'static [u8]>,
}

impl Row {
    // A run of `prove` without faults.
    const fn prove(input: &'static [u8], piece: usize, status: Status, held: &'static [u8]) -> Row {
        Row {
            words: &["prove"],
            input,
            piece,
            failing_reads: &[],
            failing_writes: &[],
            status,
            held: Some(held),
        }
    }

    // A run of words that are no command.
    const fn misuse(words: &'static [&'static str]) -> Row {
        Row {
            words,
            input: MIDPOINT,
            piece: 4096,
            failing_reads: &[],
            failing_writes: &[],
            status: Status::Usage,
            held: Some(USAGE),
        }
    }
}

// Whether a run over these bytes ends as the row says.
fn expect_row(rt: &(impl AllocGlobal + Abort), row: &Row, input: Vec<u8>) -> Result<(), Fail> {
    assert!(rt; 0 < row.piece);
    let alloc = rt.alloc();
    let mut words = Vec::new(alloc);
    for word in row.words {
        words.push(String::from_str(alloc, word)?)?;
    }
    let fails = Vec::from_slice(alloc, row.failing_reads)?;
    let mut source = MemSource::new(alloc, input, row.piece, fails);
    let mut sink = MemSink::new(alloc, Vec::from_slice(alloc, row.failing_writes)?);
    let status = run(alloc, &words, &mut source, &mut sink);
    assert_eq!(rt; status, row.status);
    if let Some(held) = row.held {
        assert_eq!(rt; sink.bytes(), held);
    }
    Ok(())
}

// A run over so many spaces.
fn expect_spaces(rt: &(impl AllocGlobal + Abort), count: usize, row: &Row) -> Result<(), Fail> {
    let spaces = vec![in rt.alloc(); b' '; count]?;
    expect_row(rt, row, spaces)
}

fn expect_rows(rt: &(impl AllocGlobal + Abort), rows: &[Row]) -> Result<(), Fail> {
    for row in rows {
        let input = Vec::from_slice(rt.alloc(), row.input)?;
        expect_row(rt, row, input)?;
    }
    Ok(())
}

#[test]
fn runs_that_need_no_log(rt: HostRuntime) -> Result<(), Fail> {
    let rows = [
        Row::misuse(&[]),
        Row::misuse(&["prove", "now"]),
        Row::misuse(&["prove", "--steps", "0"]),
        Row::misuse(&["prove", "--steps", "5", "--steps", "5"]),
        Row {
            status: Status::WriteFault,
            failing_writes: &[1],
            held: Some(b""),
            ..Row::misuse(&["prov"])
        },
        Row {
            failing_reads: &[2],
            ..Row::prove(MIDPOINT, 16, Status::ReadFault, b"")
        },
    ];
    expect_rows(&rt, &rows)?;
    let long = Row::prove(b"", 4096, Status::TooLong, b"too long\n");
    expect_spaces(&rt, 1_048_577, &long)
}

#[test]
fn logs(rt: HostRuntime) -> Result<(), Fail> {
    let which = Which::Norm;
    let rows = [
        Row::prove(MIDPOINT, 1, Status::Proved, MIDPOINT_LOG),
        Row::prove(MIDPOINT, 7, Status::Proved, MIDPOINT_LOG),
        Row::prove(SKETCHED, 4096, Status::Proved, MIDPOINT_LOG),
        Row {
            failing_writes: &[3],
            ..Row::prove(MIDPOINT, 4096, Status::WriteFault, b"geolog 2\n| point A\n")
        },
        Row::prove(CROSSING, 4096, Status::Impossible(1), CROSSING_LOG),
        Row::prove(FREE_POINTS, 4096, Status::False(1), FREE_POINTS_LOG),
        Row::prove(NUMBERS, 4096, Status::Proved, NUMBERS_LOG),
        Row::prove(
            TOO_LARGE,
            4096,
            Status::TooLarge { line: 5, which },
            TOO_LARGE_LOG,
        ),
    ];
    expect_rows(&rt, &rows)
}

#[test]
fn edges_of_the_budget(rt: HostRuntime) -> Result<(), Fail> {
    let rows = [
        Row {
            words: &["prove", "--steps", "24"],
            ..Row::prove(MIDPOINT, 4096, Status::Proved, MIDPOINT_LOG)
        },
        Row {
            words: &["--steps=23", "prove"],
            ..Row::prove(MIDPOINT, 4096, Status::Spent { line: 9 }, MIDPOINT_STOP)
        },
        Row {
            words: &["prove", "--steps", "28"],
            held: None,
            ..Row::prove(QUOTIENTS, 4096, Status::False(1), b"")
        },
        Row {
            words: &["prove", "--steps=27"],
            held: None,
            ..Row::prove(QUOTIENTS, 4096, Status::Spent { line: 14 }, b"")
        },
    ];
    expect_rows(&rt, &rows)
}

#[test]
fn verdicts(rt: HostRuntime) -> Result<(), Fail> {
    for (input, status) in DECIDED {
        let row = Row {
            held: None,
            ..Row::prove(b"", 4096, status, b"")
        };
        expect_row(&rt, &row, Vec::from_slice(rt.alloc(), input)?)?;
    }
    Ok(())
}

#[test]
fn refusals(rt: HostRuntime) -> Result<(), Fail> {
    for (input, refusal, place, line) in REFUSED {
        let status = Status::Syntax { refusal, place };
        let input = Vec::from_slice(rt.alloc(), input)?;
        expect_row(&rt, &Row::prove(b"", 4096, status, line), input)?;
    }
    let status = Status::Syntax {
        refusal: 11,
        place: 1_048_576,
    };
    let most = Row::prove(b"", 4096, status, b"syntax 11 at 1048576\n");
    expect_spaces(&rt, 1_048_576, &most)
}
