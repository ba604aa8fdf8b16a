//! Runs of `place` and `figure`. The texts are those of the specification's rows, and of a plain
//! reference.
use super::{Row, expect_rows};
use geo_poly::Which;
use proof_printer::Status;
use std::test::Fail;

// A run with this word.
const fn run_of(
    words: &'static [&'static str],
    input: &'static [u8],
    status: Status,
    held: &'static [u8],
) -> Row {
    Row {
        words,
        ..Row::prove(input, 4096, status, held)
    }
}

const fn placed(input: &'static [u8], held: &'static [u8]) -> Row {
    run_of(&["place"], input, Status::Done, held)
}

const fn drawn(input: &'static [u8], held: &'static [u8]) -> Row {
    run_of(&["figure"], input, Status::Done, held)
}

// A run of either word that is refused at this place.
const fn refused(input: &'static [u8], refusal: u32, place: u64, held: &'static [u8]) -> Row {
    run_of(&["place"], input, Status::Syntax { refusal, place }, held)
}

const MIDPOINT: &[u8] = b"at 0 0 3 1\npoint A point B midpoint M A B prove { collinear A M B }";

const CENTRES: &[u8] =
    b"at 0 0 4 0 1 3\npoint A point B point C circumcenter O A B C orthocenter H A B C \
    centroid G A B C foot D C A B reflect R C A B prove { collinear O H G }";

const COMMANDS: &[u8] =
    b"at 0 0 4 0 1 3 5 2 3\npoint A point B point C line a A B parallel b C a perp c A b \
    med m B C intersec X b c intersec Y a m inter Z A C B X pratio W A B C div { 1 } { 2 } \
    tratio T A B 2 param r online U A B translate V A B C oncircle P A C second Q A B P \
    cc S A B C inverse I C A B prove { perpendicular A C B Z }";

#[test]
fn points_are_placed(rt: HostRuntime) -> Result<(), Fail> {
    let rows = [
        placed(MIDPOINT, b"A 0 0 1\nB 3 1 1\nM 3 1 2\nholds\n"),
        placed(
            CENTRES,
            b"A 0 0 1\nB 4 0 1\nC 1 3 1\nO 2 1 1\nH 1 1 1\nG 5 3 3\nD 1 0 1\nR 1 -3 1\nholds\n",
        ),
        placed(
            COMMANDS,
            b"A 0 0 1\nB 4 0 1\nC 1 3 1\nX 0 3 1\nY 1 0 1\nZ 4 12 5\nW -3 3 2\nT 0 8 1\n\
            U 8 0 1\nV 5 3 1\nP -1 3 1\nQ -2 0 1\nS 1 -3 1\nI 8 24 5\nfails\n",
        ),
        placed(
            b"at 0 0 2 0 1 1\npoint A point B param r lratio X A B div { 1 } { r } \
            oncircle P A B prove { equal { sratio A X A B } { r } }",
            b"A 0 0 1\nB 2 0 1\nX 2 0 1\nP 0 2 1\nholds\n",
        ),
        placed(
            b"at 0 0 4 0 1 3\npoint A point B point C assume not_collinear A B C \
            weights W A B C div { 1 } { 2 } 2 midpoint M A W prove { collinear A M W }",
            b"A 0 0 1\nB 4 0 1\nC 1 3 1\nW 4 6 1\nM 2 3 1\nholds\n",
        ),
        placed(b"at\nprove { equal { 1 } { 1 } }", b"holds\n"),
    ];
    expect_rows(&rt, &rows)
}

#[test]
fn what_cannot_be_placed_is_told(rt: HostRuntime) -> Result<(), Fail> {
    const CROSSING: &[u8] =
        b"at 0 0 1 0\npoint A point B inter X A B A B prove { collinear A B X }";
    const CIRCLE: &[u8] = b"at 0 0 1 0 0\npoint A point B oncircle P A B prove { collinear A B P }";
    const FLAT: &[u8] =
        b"at 0 0 1 1 2 2\npoint A point B point C assume not_collinear A B C inter X A B A B \
        prove { collinear A B X }";
    const FAR: &[u8] =
        b"at 170141183460469231731687303715884105727 0 0 0\npoint A point B midpoint M A B \
        symmetric S A B prove { identical A A }";
    const GOAL: &[u8] = b"at 0 0 10000000000000000000 1 1 10000000000000000000 3 \
        170141183460469231731687303715884105727\npoint A point B point C point D \
        prove { harmonic A B C D }";
    let stop = |line: u64| Status::TooLarge {
        line,
        which: Which::Norm,
    };
    let rows = [
        run_of(&["place"], CROSSING, Status::Unmet(1), b"unmet 1\n"),
        run_of(&["figure"], CROSSING, Status::Unmet(1), b"unmet 1\n"),
        run_of(&["place"], CIRCLE, Status::Unmet(2), b"unmet 2\n"),
        run_of(&["place"], FLAT, Status::Unmet(1), b"unmet 1\n"),
        run_of(&["place"], FAR, stop(3), b"stop too_large 3 norm\n"),
        run_of(&["place"], GOAL, stop(5), b"stop too_large 5 norm\n"),
    ];
    expect_rows(&rt, &rows)
}

#[test]
fn values_have_one_spelling(rt: HostRuntime) -> Result<(), Fail> {
    const LINE: &[u8] = b"syntax 13 at 0\n";
    let rows = [
        refused(b"", 13, 0, LINE),
        refused(b"at", 13, 0, LINE),
        refused(b"at 0 0 3 1 \npoint A", 13, 0, LINE),
        refused(b"at  0 0 3 1\npoint A", 13, 0, LINE),
        refused(b"at 0 0 3 01\npoint A", 13, 0, LINE),
        refused(b"at 0 -0\npoint A prove { identical A A }", 13, 0, LINE),
        refused(
            b"at 0 170141183460469231731687303715884105728\npoint A prove { identical A A }",
            13,
            0,
            LINE,
        ),
        refused(b"at 1 2\npoint A point A", 6, 21, b"syntax 6 at 21\n"),
        refused(
            b"at 0 0 1\npoint A prove { identical A B }",
            5,
            37,
            b"syntax 5 at 37\n",
        ),
        refused(
            b"at 0 0\npoint A point B midpoint M A B prove { collinear A M B }",
            14,
            0,
            b"syntax 14 at 0\n",
        ),
    ];
    expect_rows(&rt, &rows)
}

#[test]
fn points_are_drawn(rt: HostRuntime) -> Result<(), Fail> {
    const WIDE: &[u8] =
        b"at 0 0 100000000000000000000000000000 1 170141183460469231731687303715884105727 0\n\
        point A point B point C prove { collinear A B C }";
    let rows = [
        drawn(
            MIDPOINT,
            b"........................................B\n\
.........................................\n\
.........................................\n\
.........................................\n\
.........................................\n\
.........................................\n\
.........................................\n\
.........................................\n\
.........................................\n\
.........................................\n\
....................M....................\n\
.........................................\n\
.........................................\n\
.........................................\n\
.........................................\n\
.........................................\n\
.........................................\n\
.........................................\n\
.........................................\n\
.........................................\n\
A........................................\n\
A 0 0 1\nB 3 1 1\nM 3 1 2\nholds\n",
        ),
        drawn(
            b"at 5 7 5 9 5 7\npoint A point B point C prove { collinear A B C }",
            b"B........................................\n\
.........................................\n\
.........................................\n\
.........................................\n\
.........................................\n\
.........................................\n\
.........................................\n\
.........................................\n\
.........................................\n\
.........................................\n\
.........................................\n\
.........................................\n\
.........................................\n\
.........................................\n\
.........................................\n\
.........................................\n\
.........................................\n\
.........................................\n\
.........................................\n\
.........................................\n\
*........................................\n\
A 5 7 1\nB 5 9 1\nC 5 7 1\nholds\n",
        ),
        run_of(
            &["figure"],
            WIDE,
            Status::TooLarge {
                line: 3,
                which: Which::Norm,
            },
            b"stop too_large 3 norm\n",
        ),
    ];
    expect_rows(&rt, &rows)
}
