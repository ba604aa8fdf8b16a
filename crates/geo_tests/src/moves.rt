//! Starts and moves on small figures: what each line of a chain has, which rows of the lemma table
//! are in use, and what is charged, beside the tables of the reference.

ghost use Rattle.std.specs.Prelude.{◌≡◌, ◌<◌, length};
ghost use Rattle.geo_logs.specs.Moves.{place_of};
ghost use Rattle.geo_logs.specs.Naming.{IsPlaceBelow};
ghost use Rattle.fraction_poly.specs.TableRows.{HasPointsBelow};
ghost use Rattle.geo_poly.specs.PolynomialVariables.{AllVariables};

use crate::chains::{Figure, Item, Named};
use crate::move_places::{has_points, is_below, is_placed};
use crate::move_texts::{error_text, name_of, push_poly};
use crate::moves_table::{ALONG, FEET, INTERSECTIONS, NUMBERS, TURNED};
use crate::ratio_moves_table::{LINES, RATIOS, WORKED};
use crate::weight_moves_table::WEIGHTS;
use area_coords::CoordRows;
use elim_apply::{ApplyError, Move, apply, start_uncounted};
use elim_area::AreaRows;
use elim_pyth::PythRows;
use elim_ratio::RatioRows;
use fraction_poly::{RowNumbers, Rows};
use geo_base::Budget;
use geo_conditions::{Problem, list};
use geo_lowering::lower;
use geo_parser::{ParseError, parse};
use geo_points::{NoMemory, PointId, TermId};
use geo_poly::{Poly, Ticks, Var};
use geo_terms::Steps;
use std::alloc::Global;
use std::marker::Brand;
use std::sync::ledger::{Blank, Ledger};
use std::test::Fail;

// What no line of the table comes near.
const AMPLE: u64 = u64::MAX;

// The move that a line of the table names.
fn meant(named: Named) -> Move {
    match named {
        Named::Ratio(points, lemma, at) => {
            let [a, b, c, d] = points.map(PointId);
            let (var, at) = (Var::R(a, b, c, d), PointId(at));
            Move::Ratio { var, lemma, at }
        }
        Named::Point(at) => Move::Point(PointId(at)),
        Named::Coords => Move::Coords,
    }
}

// The numbers of the row that the move has for a variable.
fn numbers_of(
    alloc: Global,
    steps: &Steps,
    mv: Move,
    var: Var,
) -> Result<Option<RowNumbers>, NoMemory>
    requires place { IsPlaceBelow (length steps.now.steps) (place_of mv) }
    requires var { HasPointsBelow (length steps.now.steps) var }
{
    match (mv, var) {
        (Move::Ratio { lemma, at, .. }, _) => RatioRows { lemma }.numbers(alloc, steps, at, var),
        (Move::Point(at), Var::S(_, _, _)) => AreaRows.numbers(alloc, steps, at, var),
        (Move::Point(at), _) => PythRows.numbers(alloc, steps, at, var),
        (Move::Coords, _) => CoordRows.numbers(alloc, steps, PointId(0), var),
    }
}

// Appends the row that the move has for a variable of the polynomial.
fn push_row(
    alloc: Global,
    out: &mut String,
    steps: &Steps,
    mv: Move,
    var: Var,
) -> Result<(), NoMemory> {
    let count = steps.count();
    if is_replaced(mv, var) && is_placed(mv, count) && is_below(var, count) {
        if let Some(n) = numbers_of(alloc, steps, mv, var)? {
            let name = name_of(alloc, var)?;
            write!(out, "; {name} power {}", n.power)?;
            write!(out, " num {} {} {}", n.wa, n.ka, n.ga)?;
            write!(out, " den {} {} {} charge {}", n.wb, n.kb, n.gb, n.charge)?;
        }
    }
    Ok(())
}

// Whether the move may replace the variable: a ratio's replaces no other variable.
fn is_replaced(mv: Move, var: Var) -> bool {
    match mv {
        Move::Ratio { var: own, .. } => own == var,
        _ => true,
    }
}

// What a line of a chain came to, and what was left of its budget.
#[derive(Drop)]
struct Answer {
    poly: Result<Poly, ApplyError>,
    left: u64,
}

impl Answer {
    // What was taken of an ample budget.
    fn charge(&self) -> u64 {
        AMPLE.saturating_sub(self.left)
    }

    // Whether there were too few charges, and all are there yet.
    fn is_spent(&self, left: u64) -> bool {
        matches!(self.poly, Err(ApplyError::Spent)) && self.left == left
    }

    // Whether there were just as many charges as were taken.
    fn is_paid(&self) -> bool {
        !matches!(self.poly, Err(ApplyError::Spent)) && self.left == 0
    }

    // Appends the charge, and the polynomial or the error.
    fn push(&self, alloc: Global, out: &mut String) -> Result<(), NoMemory> {
        write!(out, " {}:", self.charge())?;
        match &self.poly {
            Ok(poly) => push_poly(alloc, out, poly)?,
            Err(error) => write!(out, " {}", error_text(*error))?,
        }
        Ok(())
    }
}

// The start of a term, with so many charges.
fn started(alloc: Global, steps: &Steps, term: TermId, left: u64) -> Answer
    requires { term.0 < length steps.now.nodes }
{
    let mut budget = Budget { left };
    let poly = start_uncounted(alloc, steps, term, &mut budget);
    Answer {
        poly,
        left: budget.left,
    }
}

// A move on a polynomial, with so many charges.
fn moved(alloc: Global, steps: &Steps, poly: &Poly, mv: Move, left: u64) -> Answer
    requires points { AllVariables (HasPointsBelow (length steps.now.steps)) poly.now }
    requires place { IsPlaceBelow (length steps.now.steps) (place_of mv) }
{
    moved_in::<Brand>(alloc, steps, poly, mv, left, Blank::new(1))
}

// The same with a counter.
fn moved_in<L: Ledger>(
    alloc: Global,
    steps: &Steps,
    poly: &Poly,
    mv: Move,
    left: u64,
    blank: Blank,
) -> Answer
    requires points { AllVariables (HasPointsBelow (length steps.now.steps)) poly.now }
    requires place { IsPlaceBelow (length steps.now.steps) (place_of mv) }
    requires name { blank.name ≡ L.name }
    requires parts { blank.parts ≡ L.parts }
    requires some { 0 < blank.parts }
{
    let mut budget = Budget { left };
    let mut ticks = Ticks::<L>::new(blank);
    let poly = apply(alloc, steps, poly, &mv, &mut budget, &mut ticks);
    Answer {
        poly,
        left: budget.left,
    }
}

// Appends a start, and says so where one charge fewer is enough or as many are too few.
fn push_start(
    alloc: Global,
    out: &mut String,
    steps: &Steps,
    term: TermId,
) -> Result<Answer, NoMemory>
    requires { term.0 < length steps.now.nodes }
{
    let answer = started(alloc, steps, term, AMPLE);
    write!(out, "start")?;
    answer.push(alloc, out)?;
    let charge = answer.charge();
    if !started(alloc, steps, term, charge).is_paid() {
        write!(out, " not paid")?;
    }
    if charge > 0 && !started(alloc, steps, term, charge - 1).is_spent(charge - 1) {
        write!(out, " not spent")?;
    }
    Ok(answer)
}

// Appends a move, and says so where one charge fewer is enough or as many are too few.
fn push_move(
    alloc: Global,
    out: &mut String,
    steps: &Steps,
    poly: &Poly,
    mv: Move,
) -> Result<Answer, NoMemory>
    requires points { AllVariables (HasPointsBelow (length steps.now.steps)) poly.now }
    requires place { IsPlaceBelow (length steps.now.steps) (place_of mv) }
{
    let answer = moved(alloc, steps, poly, mv, AMPLE);
    write!(out, "; gives")?;
    answer.push(alloc, out)?;
    let charge = answer.charge();
    if !moved(alloc, steps, poly, mv, charge).is_paid() {
        write!(out, " not paid")?;
    }
    if charge > 0 && !moved(alloc, steps, poly, mv, charge - 1).is_spent(charge - 1) {
        write!(out, " not spent")?;
    }
    Ok(answer)
}

// Appends the rows that a move has for a polynomial.
fn push_rows(
    alloc: Global,
    out: &mut String,
    steps: &Steps,
    poly: &Poly,
    mv: Move,
) -> Result<(), NoMemory> {
    let variables = poly.variables(alloc)?;
    for var in &variables.items {
        push_row(alloc, out, steps, mv, *var)?;
    }
    Ok(())
}

// Appends the rows and the line of a move, and answers the polynomial that stands then: after an
// error the one before.
fn push_line(
    alloc: Global,
    out: &mut String,
    steps: &Steps,
    poly: Poly,
    mv: Move,
) -> Result<Poly, NoMemory> {
    push_rows(alloc, out, steps, &poly, mv)?;
    if !has_points(alloc, steps, &poly)? || !is_placed(mv, steps.count()) {
        write!(out, "; past the steps")?;
        return Ok(poly);
    }
    let answer = push_move(alloc, out, steps, &poly, mv)?;
    Ok(answer.poly.unwrap_or(poly))
}

// The term of a condition or a goal, counted from 1.
fn term_of(problem: &Problem, item: Item) -> Option<TermId> {
    let (items, k) = match item {
        Item::Condition(k) => (&problem.conditions.items, k),
        Item::Goal(k) => (&problem.goals.items, k),
    };
    let item = items.get(k.checked_sub(1)?)?;
    Some(item.term)
}

// The lines of a chain, as a text.
fn chain_text(
    alloc: Global,
    steps: &Steps,
    term: TermId,
    moves: &[Named],
) -> Result<String, NoMemory> {
    let mut out = String::new(alloc);
    if term.0 >= steps.look().len() {
        write!(out, "past the terms")?;
        return Ok(out);
    }
    let answer = push_start(alloc, &mut out, steps, term)?;
    let mut poly = answer.poly.unwrap_or(Poly::zero(alloc));
    for named in moves {
        poly = push_line(alloc, &mut out, steps, poly, meant(*named))?;
    }
    Ok(out)
}

// The chain of a condition or a goal, as a text.
pub fn item_text(
    alloc: Global,
    problem: &Problem,
    item: Item,
    moves: &[Named],
) -> Result<String, NoMemory> {
    match term_of(problem, item) {
        Some(term) => chain_text(alloc, &problem.steps, term, moves),
        None => Ok(format!(in alloc; "past the list")?),
    }
}

// The problem that a text spells. No test has a text that is too long to be parsed.
pub fn problem_of(alloc: Global, text: &str) -> Result<Problem, ParseError> {
    if text.len() > 67_108_864 {
        return Err(ParseError::NoMemory);
    }
    let program = parse(alloc, text.as_bytes())?;
    let lowered = lower(alloc, &program)?;
    Ok(list(alloc, &program, lowered)?)
}

// The first chain that is not that of the table, after its program, and no text where there is
// none.
fn odd_chain(alloc: Global, figures: &[Figure]) -> Result<String, NoMemory> {
    for (program, chains) in figures {
        let Ok(problem) = problem_of(alloc, program) else {
            return Ok(format!(in alloc; "{program}: not read")?);
        };
        for (item, moves, want) in *chains {
            let text = item_text(alloc, &problem, *item, moves)?;
            if text.as_str() != *want {
                return Ok(format!(in alloc; "{program}: {text}")?);
            }
        }
    }
    Ok(String::new(alloc))
}

#[test]
fn moves_of_intersections_are_those_of_the_reference(rt: HostRuntime) -> Result<(), Fail> {
    let odd = odd_chain(rt.alloc(), INTERSECTIONS)?;
    assert_eq!(rt; odd.as_str(), "");
    Ok(())
}

#[test]
fn moves_of_feet_are_those_of_the_reference(rt: HostRuntime) -> Result<(), Fail> {
    let odd = odd_chain(rt.alloc(), FEET)?;
    assert_eq!(rt; odd.as_str(), "");
    Ok(())
}

#[test]
fn moves_along_vectors_are_those_of_the_reference(rt: HostRuntime) -> Result<(), Fail> {
    let odd = odd_chain(rt.alloc(), ALONG)?;
    assert_eq!(rt; odd.as_str(), "");
    Ok(())
}

#[test]
fn moves_of_turned_points_are_those_of_the_reference(rt: HostRuntime) -> Result<(), Fail> {
    let odd = odd_chain(rt.alloc(), TURNED)?;
    assert_eq!(rt; odd.as_str(), "");
    Ok(())
}

#[test]
fn moves_of_weighted_points_are_those_of_the_reference(rt: HostRuntime) -> Result<(), Fail> {
    let odd = odd_chain(rt.alloc(), WEIGHTS)?;
    assert_eq!(rt; odd.as_str(), "");
    Ok(())
}

#[test]
fn numbers_and_coordinates_are_those_of_the_reference(rt: HostRuntime) -> Result<(), Fail> {
    let odd = odd_chain(rt.alloc(), NUMBERS)?;
    assert_eq!(rt; odd.as_str(), "");
    Ok(())
}

#[test]
fn ratios_to_lines_are_those_of_the_reference(rt: HostRuntime) -> Result<(), Fail> {
    let odd = odd_chain(rt.alloc(), LINES)?;
    assert_eq!(rt; odd.as_str(), "");
    Ok(())
}

#[test]
fn other_ratios_are_those_of_the_reference(rt: HostRuntime) -> Result<(), Fail> {
    let odd = odd_chain(rt.alloc(), RATIOS)?;
    assert_eq!(rt; odd.as_str(), "");
    Ok(())
}

#[test]
fn worked_chains_are_those_of_the_reference(rt: HostRuntime) -> Result<(), Fail> {
    let odd = odd_chain(rt.alloc(), WORKED)?;
    assert_eq!(rt; odd.as_str(), "");
    Ok(())
}
