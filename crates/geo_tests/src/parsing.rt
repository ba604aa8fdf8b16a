//! What no clause says: that texts are read where there is memory, and that the rules are those
//! that were meant.
use geo_lexer::Fault;
use geo_parser::{ParseError, parse};
use geo_program::{Program, print};
use std::alloc::Global;
use std::test::Fail;

// A text, and the number and place of its refusal; `None` for a text that spells a program.
const REFUSALS: &[(&str, Option<(u32, u64)>)] = &[
    ("", Some((11, 0))),
    ("point A\n", Some((11, 8))),
    ("point A @", Some((1, 8))),
    (
        "param r prove { equal { r } { 170141183460469231731687303715884105728 } }",
        Some((2, 30)),
    ),
    ("point A B", Some((4, 8))),
    ("prove { collinear A B C }", Some((5, 18))),
    ("point A point A", Some((6, 14))),
    ("param r midpoint M r r", Some((7, 19))),
    ("point A point B lratio X A B sratio A B A B", Some((8, 29))),
    ("prove { equal { 1 } { 1 } } point A", Some((12, 28))),
    ("@", Some((1, 0))),
    ("170141183460469231731687303715884105728", Some((2, 0))),
    (
        "point 170141183460469231731687303715884105728",
        Some((2, 6)),
    ),
    ("prove { equal { 1 } { 1 } } @", Some((1, 28))),
    ("prove { equal { 1 } { 1 } } % more", None),
    ("prove { equal { 1 } { 1 } } }", Some((12, 28))),
    ("prove { equal { 1 } { 1 } } 1", Some((12, 28))),
    (
        "prove { equal { 1 } { 1 } } -170141183460469231731687303715884105728",
        Some((2, 28)),
    ),
    ("A", Some((4, 0))),
    ("assume", Some((4, 6))),
    ("point A assume equal", Some((4, 15))),
    ("point A assume assume", Some((4, 15))),
    ("point A assume A", Some((4, 15))),
    ("point A assume different", Some((4, 24))),
    ("point A assume different A prove", Some((4, 27))),
    ("point A assume different A B", Some((5, 27))),
    ("param r assume not_collinear r r r", Some((7, 29))),
    ("point A assume different A A A", Some((4, 29))),
    (
        "point different assume different different different \
         prove { identical different different }",
        None,
    ),
    ("weights", Some((4, 7))),
    ("weights X X X X 1 1", Some((5, 10))),
    ("point A weights A A A A 1 1", Some((6, 16))),
    ("point A weights X A A A 1 point", Some((4, 26))),
    ("point A weights X A A A sratio", Some((8, 24))),
    ("point A weights X A A A 1 sratio", Some((8, 26))),
    (
        "point A weights X A A A 1 div { 1 } { sratio A A A A }",
        Some((8, 38)),
    ),
    ("{", Some((4, 0))),
    ("5", Some((4, 0))),
    ("collinear", Some((4, 0))),
    ("different", Some((4, 0))),
    ("signed_area3", Some((4, 0))),
    ("point", Some((4, 5))),
    ("point {", Some((4, 6))),
    ("point 5", Some((4, 6))),
    ("point prove", Some((4, 6))),
    ("point assume", Some((4, 6))),
    ("point weights", Some((4, 6))),
    ("point midpoint", Some((4, 6))),
    ("point sum", Some((4, 6))),
    ("point A 1", Some((4, 9))),
    ("point A 1 B", Some((4, 10))),
    ("point A 1 2 3", Some((4, 12))),
    ("point A 1 2 B", Some((4, 12))),
    ("point A 1 }", Some((4, 10))),
    ("point A { 1 2", Some((4, 8))),
    ("param r 1", Some((4, 8))),
    ("line", Some((4, 4))),
    ("line a", Some((4, 6))),
    ("point A line a A", Some((4, 16))),
    ("point A line A A A", Some((6, 13))),
    ("point A line a A a", Some((5, 17))),
    ("point A line a A B", Some((5, 17))),
    ("point A line a A 1", Some((4, 17))),
    ("point A line a A sum", Some((4, 17))),
    ("point A point B line a A B line b a A", Some((7, 34))),
    ("point A point B line a A B parallel b A b", Some((5, 40))),
    ("point A point B line a A B parallel b A B", Some((7, 40))),
    ("point A point B line a A B parallel a A a", Some((6, 36))),
    ("point A point B line a A B intersec X a A", Some((7, 40))),
    ("point A point B line a A B perp b a", Some((7, 34))),
    ("midpoint M M M", Some((5, 11))),
    ("point A midpoint M M A", Some((5, 19))),
    ("point A midpoint M A M", Some((5, 21))),
    ("point A midpoint M A", Some((4, 20))),
    ("point A midpoint M A prove", Some((4, 21))),
    ("point A midpoint A A A", Some((6, 17))),
    ("param A midpoint A A A", Some((6, 17))),
    ("point A param A", Some((6, 14))),
    ("point A pratio B A A A", Some((4, 22))),
    ("point A pratio B A A A }", Some((4, 23))),
    ("point A pratio B A A A A", Some((7, 23))),
    ("point A pratio B A A A B", Some((5, 23))),
    ("point A pratio B A A A { 1 }", Some((4, 23))),
    ("point A pratio B A A A sratio", Some((8, 23))),
    ("point A pratio B A A A point", Some((4, 23))),
    ("point A pratio B A A A prove", Some((4, 23))),
    ("point A pratio B A A A neg", Some((4, 26))),
    ("point A pratio B A A A neg 1", Some((4, 27))),
    ("point A pratio B A A A neg {", Some((4, 28))),
    ("point A pratio B A A A neg { 1", Some((4, 30))),
    ("point A pratio B A A A neg { 1 2", Some((4, 31))),
    ("point A pratio B A A A sum { 1 }", Some((4, 32))),
    ("point A pratio B A A A sum { 1 } }", Some((4, 33))),
    (
        "point A pratio B A A A div { 1 } { sratio A A A A }",
        Some((8, 35)),
    ),
    (
        "point A pratio B A A A neg { sratio A A A A }",
        Some((8, 29)),
    ),
    ("point A pratio B A A A signed_area3 A A", Some((4, 39))),
    ("point A pratio B A A A signed_area3 A A 1", Some((4, 40))),
    (
        "point A pratio B A A A pythagoras_difference3 A B A",
        Some((5, 48)),
    ),
    ("prove", Some((4, 5))),
    ("prove prove", Some((4, 6))),
    ("prove {", Some((4, 7))),
    ("prove { point", Some((4, 8))),
    ("prove { sum", Some((4, 8))),
    ("prove { A", Some((4, 8))),
    ("prove { equal", Some((4, 13))),
    ("prove { equal {", Some((4, 15))),
    ("prove { equal { }", Some((4, 16))),
    ("prove { equal { sratio", Some((4, 22))),
    (
        "point A prove { equal { sratio A A A A } { div { sratio A A A A } { 1 } } }",
        None,
    ),
    (
        "point A prove { equal { div { 1 } { sratio A A A A } } { 1 } }",
        Some((8, 36)),
    ),
    (
        "point A \
         prove { equal { div { div { 1 } { 2 } } { sum { sratio A A A A } { 1 } } } { 1 } }",
        Some((8, 56)),
    ),
    (
        "point A prove { equal { div { 1 } { 1 } } { sratio A A A A } }",
        None,
    ),
    ("prove { equal { 1 } { 1 }", Some((4, 25))),
    ("prove { equal { 1 } }", Some((4, 20))),
    ("prove { equal { 1 } 1", Some((4, 20))),
    ("prove { equal { 1 } { 1 } 1", Some((4, 26))),
    ("prove { equal { 1 } { x } }", Some((5, 22))),
    ("prove { equal { 1 } { prove } }", Some((4, 22))),
    ("point A prove { equal { 1 } { A } }", Some((7, 30))),
    ("point A prove { collinear A A }", Some((4, 30))),
    ("point A prove { collinear A A A A", Some((4, 32))),
    ("point A prove { collinear A A A", Some((4, 31))),
    ("point A prove { midpoint A A A A }", Some((4, 31))),
    ("point A prove { same_length A A A A } %", None),
    ("point A prove { harmonic A A A B }", Some((5, 31))),
    ("point A prove { concyclic A A A concyclic }", Some((4, 32))),
    ("point A prove { identical A A } prove", Some((12, 32))),
    ("point A prove collinear A A A", Some((4, 14))),
    (
        "point different point not_collinear point crossing \
         prove { collinear different not_collinear crossing }",
        None,
    ),
    (
        "point A1 point a1 prove { collinear A1 a1 a2 }",
        Some((5, 42)),
    ),
    ("% point A", Some((11, 9))),
    ("point A % prove", Some((11, 15))),
    ("point A -", Some((1, 8))),
    ("point A -1", Some((4, 10))),
    ("point A -1 --2", Some((1, 11))),
    ("point A 1.5", Some((1, 9))),
];

// A text, and the canonical text of the program that it spells.
const PROGRAMS: &[(&str, &str)] = &[
    ("prove{equal{1}{1}}", "prove { equal { 1 } { 1 } }\n"),
    (
        "point A 3 -4 point B % free\nparam r line a A B prove { identical A B }",
        "point A\npoint B\nparam r\nline a A B\nprove { identical A B }\n",
    ),
    (
        "point A point B line a A B parallel b A a perp c B a med d A B intersec X c d \
         prove { collinear A X B }",
        "point A\npoint B\nline a A B\nparallel b A a\nperp c B a\nmed d A B\nintersec X c d\n\
         prove { collinear A X B }\n",
    ),
    (
        "point A point B point C point D inter X A B C D foot F A B C prove { parallel A B C D }",
        "point A\npoint B\npoint C\npoint D\ninter X A B C D\nfoot F A B C\n\
         prove { parallel A B C D }\n",
    ),
    (
        "point A point B point C param r pratio X A B C r tratio Y A B -007 \
         lratio Z A B div { r } { 002 } prove { perpendicular A B X Y }",
        "point A\npoint B\npoint C\nparam r\npratio X A B C r\ntratio Y A B -7\n\
         lratio Z A B div { r } { 2 }\nprove { perpendicular A B X Y }\n",
    ),
    (
        "point A point B online X A B midpoint M A B translate T A B X symmetric S A B \
         prove { midpoint M A B }",
        "point A\npoint B\nonline X A B\nmidpoint M A B\ntranslate T A B X\nsymmetric S A B\n\
         prove { midpoint M A B }\n",
    ),
    (
        "point A point B point C reflect R A B C circumcenter O A B C orthocenter H A B C \
         centroid G A B C prove { same_length O A O B }",
        "point A\npoint B\npoint C\nreflect R A B C\ncircumcenter O A B C\northocenter H A B C\n\
         centroid G A B C\nprove { same_length O A O B }\n",
    ),
    (
        "point O point A point B oncircle X O A second S A B O cc T O B A inverse I B O A \
         prove { harmonic O A B X }",
        "point O\npoint A\npoint B\noncircle X O A\nsecond S A B O\ncc T O B A\ninverse I B O A\n\
         prove { harmonic O A B X }\n",
    ),
    (
        "point A point B assume different A B point C assume not_collinear A B C param t \
         weights X A B C -007 div{1}{t} assume not_parallel A X B C prove { collinear A X B }",
        "point A\npoint B\nassume different A B\npoint C\nassume not_collinear A B C\nparam t\n\
         weights X A B C -7 div { 1 } { t }\nassume not_parallel A X B C\n\
         prove { collinear A X B }\n",
    ),
    (
        "point A point B point C point D prove { concyclic A B C D }",
        "point A\npoint B\npoint C\npoint D\nprove { concyclic A B C D }\n",
    ),
    (
        "point A point B point C prove { equal { sratio A B A C } { signed_area3 A B C } }",
        "point A\npoint B\npoint C\nprove { equal { sratio A B A C } { signed_area3 A B C } }\n",
    ),
    (
        "point A point B point C param t \
         prove { equal { sum { neg { pythagoras_difference3 A B C } } { sub { t } { -0 } } } \
         { mult { 170141183460469231731687303715884105727 } { div { sratio A B A C } { t } } } }",
        "point A\npoint B\npoint C\nparam t\n\
         prove { equal { sum { neg { pythagoras_difference3 A B C } } { sub { t } { 0 } } } \
         { mult { 170141183460469231731687303715884105727 } { div { sratio A B A C } { t } } } }\n",
    ),
    (
        "% nothing\npoint\tA\r\npoint B prove\n{\ncollinear A B A}%",
        "point A\npoint B\nprove { collinear A B A }\n",
    ),
    (
        "point a line l a a point l1 param a1 pratio p a a a a1 prove { collinear a l1 p }",
        "point a\nline l a a\npoint l1\nparam a1\npratio p a a a a1\nprove { collinear a l1 p }\n",
    ),
];

// What `parse` answers of a text. No test has one that is too long for it.
fn read(alloc: Global, text: &str) -> Result<Program, ParseError> {
    if text.len() > 67_108_864 {
        return Err(ParseError::NoMemory);
    }
    parse(alloc, text.as_bytes())
}

#[test]
fn texts_are_refused_at_their_first_fault(rt: HostRuntime) -> Result<(), Fail> {
    for (text, want) in REFUSALS {
        let want = want.map(|(refusal, place)| ParseError::Syntax(Fault { refusal, place }));
        assert_eq!(rt; read(rt.alloc(), text).err(), want, "{text}");
    }
    Ok(())
}

#[test]
fn programs_are_printed_as_they_were_read(rt: HostRuntime) -> Result<(), Fail> {
    for (text, want) in PROGRAMS {
        for spelling in [text, want] {
            let Ok(program) = read(rt.alloc(), spelling) else {
                assert!(rt; false, "{spelling}");
                return Ok(());
            };
            let canonical = print(rt.alloc(), &program)?;
            assert_eq!(rt; canonical.bytes.as_slice(), want.as_bytes(), "{spelling}");
        }
    }
    Ok(())
}

// The text so many times.
fn repeated(rt: &HostRuntime, text: &str, count: usize) -> Result<String, Fail> {
    let mut all = String::new(rt.alloc());
    for _ in 0..count {
        all.push_str(text)?;
    }
    Ok(all)
}

#[test]
fn limits_are_those_meant(rt: HostRuntime) -> Result<(), Fail> {
    for (levels, want) in [(128, None), (129, Some((9, 535))), (200, Some((9, 535)))] {
        let want = want.map(|(refusal, place)| ParseError::Syntax(Fault { refusal, place }));
        let opening = repeated(&rt, "neg{", levels)?;
        let closing = repeated(&rt, "}", levels)?;
        let text = format!(in rt.alloc(); "param r prove{{equal{{{opening}r{closing}}}{{1}}}}")?;
        assert_eq!(rt; read(rt.alloc(), text.as_str()).err(), want, "{levels}");
    }
    let spaces = repeated(&rt, " ", 1_048_576)?;
    let want = ParseError::Syntax(Fault {
        refusal: 11,
        place: 1_048_576,
    });
    assert_eq!(rt; read(rt.alloc(), spaces.as_str()).err(), Some(want));
    Ok(())
}

// What follows commands that make 508 points, and the place of its refusal for too many points.
const LAST_POINTS: &[(&str, Option<u64>)] = &[
    ("orthocenter H A B C point D prove{equal{1}{1}}", None),
    ("orthocenter H A B C point D point E", Some(2383)),
    ("orthocenter H A B C reflect R A B C", Some(2377)),
    ("orthocenter H A B C weights X A B C 1 1", Some(2377)),
    (
        "reflect R A B C assume different A B weights X A B C 1 1 prove{equal{1}{1}}",
        None,
    ),
    ("circumcenter R A B C", Some(2362)),
    ("circumcenter R R R R", Some(2362)),
    ("oncircle X A B med b A B", Some(2368)),
    ("oncircle X A B perp b A a", Some(2369)),
    (
        "oncircle X A B parallel b A a line c A B param r parallel d A a",
        Some(2407),
    ),
];

#[test]
fn points_are_counted_with_those_of_constructions(rt: HostRuntime) -> Result<(), Fail> {
    let mut start = String::new(rt.alloc());
    start.push_str("point A point B point C line a A B ")?;
    for i in 0..101 {
        start.push_str(format!(in rt.alloc(); "circumcenter O{i} A B C ")?.as_str())?;
    }
    for (more, want) in LAST_POINTS {
        let want = want.map(|place| ParseError::Syntax(Fault { refusal: 10, place }));
        let text = format!(in rt.alloc(); "{start}{more}")?;
        assert_eq!(rt; read(rt.alloc(), text.as_str()).err(), want, "{more}");
    }
    let mut points = String::new(rt.alloc());
    for i in 0..513 {
        points.push_str(format!(in rt.alloc(); "point A{i} ")?.as_str())?;
    }
    let want = ParseError::Syntax(Fault {
        refusal: 10,
        place: 5528,
    });
    assert_eq!(rt; read(rt.alloc(), points.as_str()).err(), Some(want));
    Ok(())
}
