//! Worked lines: the chain of a middle that lies on its line, and the ratio of Ceva's theorem.

ghost use Rattle.std.specs.Prelude.{◌≡◌, IfOk, length};
ghost use Rattle.fraction_poly.specs.TableRows.{HasPointsBelow};
ghost use Rattle.geo_poly.specs.PolynomialVariables.{AllVariables};

use crate::applied_moves::with_middle;
use elim_apply::{ApplyError, Move};
use geo_base::Budget;
use geo_chain::{next_line, next_move};
use geo_points::{NoMemory, PointId};
use geo_poly::lists::{Factors, Vars};
use geo_poly::{Factor, Poly, Var};
use geo_terms::{Step, Steps};
use proof_log::Line;
use std::alloc::Global;
use std::test::Fail;

/// The area of the three points, times -1.
fn turned_area(alloc: Global) -> Result<Poly, NoMemory>
    ensures { IfOk result (AllVariables (HasPointsBelow 3)) }
{
    let mut factor = Factor::new(alloc, -1)?;
    factor.times(Var::S(PointId(0), PointId(1), PointId(2)), 1)?;
    let list = Factors {
        items: vec![in alloc; factor]?,
    };
    Poly::gather(alloc, &list)
}

/// Whether the area of the three points goes by a cut, the point and the end, and all is spent.
fn middle_goes(alloc: Global, left: u64) -> Result<bool, ApplyError> {
    let steps = with_middle(alloc)?;
    let start = turned_area(alloc)?;
    let known = Vars {
        items: Vec::new(alloc),
    };
    let mut budget = Budget { left };
    let Line::Cut { by, poly } = next_line(alloc, &steps, &start, &known, &mut budget)? else {
        return Ok(false);
    };
    let Line::Point { at, poly: gone } = next_line(alloc, &steps, &poly, &known, &mut budget)?
    else {
        return Ok(false);
    };
    let Line::End = next_line(alloc, &steps, &gone, &known, &mut budget)? else {
        return Ok(false);
    };
    Ok(
        by.coef() == -1
            && by.powers() == 0
            && at == PointId(2)
            && gone.is_zero()
            && budget.left == 0,
    )
}

#[test]
fn a_middle_goes_in_three_lines(rt: HostRuntime) -> Result<(), Fail> {
    let alloc = rt.alloc();
    assert!(rt; middle_goes(alloc, 24).is_ok_and(|all| all));
    assert!(rt; matches!(middle_goes(alloc, 23), Err(ApplyError::Spent)));
    Ok(())
}

/// Four free points A, B, C and P, and the point F of the lines AB and CP.
fn with_crossing(alloc: Global) -> Result<Steps, NoMemory>
    ensures { IfOk result (λ s. length s.steps ≡ 5) }
{
    let mut steps = Steps::new(alloc)?;
    let a = steps.push(Step::Point)?;
    let b = steps.push(Step::Point)?;
    let c = steps.push(Step::Point)?;
    let p = steps.push(Step::Point)?;
    steps.push(Step::Inter {
        u: a,
        v: b,
        p: c,
        q: p,
    })?;
    Ok(steps)
}

/// Whether the ratio AF / BF is the next to go, by lemma 21 at F.
fn ratio_is_next(alloc: Global) -> Result<bool, NoMemory> {
    let steps = with_crossing(alloc)?;
    let [a, b, f] = [PointId(0), PointId(1), PointId(4)];
    let ratio = Poly::var(alloc, Var::R(a, f, b, f))?;
    match next_move(&steps, &ratio) {
        Some(Move::Ratio { var, lemma, at }) => {
            Ok(var == Var::R(a, f, b, f) && lemma == 21 && at == f)
        }
        _ => Ok(false),
    }
}

#[test]
fn a_ratio_goes_first(rt: HostRuntime) -> Result<(), Fail> {
    assert!(rt; ratio_is_next(rt.alloc()).is_ok_and(|next| next));
    Ok(())
}
