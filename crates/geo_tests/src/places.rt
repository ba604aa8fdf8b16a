//! Programs at values, and the pictures of their points. What is expected was worked out by hand.

ghost use Rattle.std.specs.Prelude.{◌<◌, ◌^◌, All, IfOk, unsigned_abs};
ghost use Rattle.geo_place.specs.Placing.{IsDrawable};

use geo_base::Text;
use geo_figure::draw;
use geo_parser::parse;
use geo_place::{Ints, PlaceError, Placed, place, placed_text, wanted};
use geo_points::NoMemory;
use std::alloc::Global;
use std::test::Fail;

// A text that spells a program, values, and what is answered for them.
const PLACED: &[(&str, &[i64], Result<&str, PlaceError>)] = &[
    (
        "point A point B midpoint M A B prove { collinear A M B }",
        &[0, 0, 3, 1],
        Ok("A 0 0 1\nB 3 1 1\nM 3 1 2\nholds\n"),
    ),
    (
        "point A point B inter X A B A B prove { collinear A B X }",
        &[0, 0, 1, 0],
        Err(PlaceError::Unmet(1)),
    ),
    // Two different weights, first whole numbers and then fractions.
    (
        "point A point B point C weights X A B C 2 -1 prove { collinear B C X }",
        &[1, 0, 4, 1, 0, 5],
        Ok("A 1 0 1\nB 4 1 1\nC 0 5 1\nX 8 -3 1\nholds\n"),
    ),
    (
        "point A point B point C weights X A B C div { 1 } { 2 } div { 1 } { 3 } \
         prove { collinear B C X }",
        &[1, 0, 4, 1, 0, 5],
        Ok("A 1 0 1\nB 4 1 1\nC 0 5 1\nX 13 13 6\nfails\n"),
    ),
    // The denominator of a triple is the least common one of the two coordinates.
    (
        "point A point B point C weights X A B C div { 1 } { 2 } div { 1 } { 3 } \
         prove { collinear A B C }",
        &[0, 0, 1, 0, 0, 1],
        Ok("A 0 0 1\nB 1 0 1\nC 0 1 1\nX 3 2 6\nfails\n"),
    ),
    (
        "point A point B point C weights X A B C div { 1 } { 6 } div { -5 } { 4 } \
         prove { collinear A B C }",
        &[0, 0, 1, 0, 0, 1],
        Ok("A 0 0 1\nB 1 0 1\nC 0 1 1\nX 2 -15 12\nfails\n"),
    ),
    (
        "point A point B point C weights X A B C 0 7 prove { collinear A C X }",
        &[0, 0, 1, 0, 0, 1],
        Ok("A 0 0 1\nB 1 0 1\nC 0 1 1\nX 0 7 1\nholds\n"),
    ),
    // An assumption is a condition of its line, and makes no point.
    (
        "point A point B assume different A B point C prove { collinear A B C }",
        &[0, 0, 2, 0, 1, 1],
        Ok("A 0 0 1\nB 2 0 1\nC 1 1 1\nfails\n"),
    ),
    (
        "point A point B assume different A B point C prove { collinear A B C }",
        &[7, 7, 7, 7, 1, 1],
        Err(PlaceError::Unmet(1)),
    ),
    (
        "point A point B assume different A B \
         lratio X A B 170141183460469231731687303715884105727 prove { collinear A B X }",
        &[0, 0, 2, 0],
        Err(PlaceError::TooLarge { line: 4 }),
    ),
];

// The picture of a segment and its middle, and then the points.
const MIDDLE: &str = "........................................B\n\
     .........................................\n\
     .........................................\n\
     .........................................\n\
     .........................................\n\
     .........................................\n\
     .........................................\n\
     .........................................\n\
     .........................................\n\
     .........................................\n\
     ....................M....................\n\
     .........................................\n\
     .........................................\n\
     .........................................\n\
     .........................................\n\
     .........................................\n\
     .........................................\n\
     .........................................\n\
     .........................................\n\
     .........................................\n\
     A........................................\n\
     A 0 0 1\nB 3 1 1\nM 3 1 2\nholds\n";

// Whole numbers as values.
fn ints(alloc: Global, values: &[i64]) -> Result<Ints, NoMemory>
    ensures { IfOk result (λ zs. All (λ z. unsigned_abs z < 2 ^ 127) zs) }
{
    let mut items = Vec::new(alloc);
    for value in values {
        items.push(i128::from(*value))?;
    }
    Ok(Ints { items })
}

// The program that a text spells, placed at these values.
fn placed(alloc: Global, text: &str, values: &[i64]) -> Result<Placed, PlaceError>
    ensures { IfOk result (λ answer. All IsDrawable answer.points) }
{
    if text.len() > 67_108_864 {
        return Err(PlaceError::NoMemory);
    }
    let program = parse(alloc, text.as_bytes()).map_err(|_| PlaceError::NoMemory)?;
    let ints = ints(alloc, values)?;
    if ints.items.len() as u64 != wanted(&program) {
        return Err(PlaceError::NoMemory);
    }
    place(alloc, &program, &ints)
}

// What is answered for the program at these values.
fn answer(alloc: Global, text: &str, values: &[i64]) -> Result<Text, PlaceError> {
    let placed = placed(alloc, text, values)?;
    Ok(placed_text(alloc, &placed)?)
}

// Whether this is answered.
fn is_answer(alloc: Global, text: &str, values: &[i64], want: Result<&str, PlaceError>) -> bool {
    match (answer(alloc, text, values), want) {
        (Ok(got), Ok(want)) => got.bytes.as_slice() == want.as_bytes(),
        (Err(got), Err(want)) => got == want,
        _ => false,
    }
}

#[test]
fn programs_are_placed(rt: HostRuntime) -> Result<(), Fail> {
    for (text, values, want) in PLACED {
        assert!(rt; is_answer(rt.alloc(), text, values, *want), "{text}");
    }
    Ok(())
}

// Whether the program at these values has this picture.
fn is_drawn(alloc: Global, text: &str, values: &[i64], want: &str) -> bool {
    let Ok(placed) = placed(alloc, text, values) else {
        return false;
    };
    match draw(alloc, &placed) {
        Ok(picture) => picture.bytes.as_slice() == want.as_bytes(),
        Err(_) => false,
    }
}

#[test]
fn points_are_drawn(rt: HostRuntime) -> Result<(), Fail> {
    let text = "point A point B midpoint M A B prove { collinear A M B }";
    assert!(rt; is_drawn(rt.alloc(), text, &[0, 0, 3, 1], MIDDLE));
    Ok(())
}
