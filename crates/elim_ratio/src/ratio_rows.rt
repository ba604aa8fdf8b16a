//! The rows of ratios.

ghost use Rattle.std.specs.Prelude.{◌≡◌, ◌<◌, ◌==◌, IfOk, IsTrue, length, not, option_map};
ghost use Rattle.std.specs.Option.{ForSome};
ghost use Rattle.elim_ratio.specs.RatioTable.{lemma_row, ratio_table};
ghost use Rattle.fraction_poly.specs.Inner.Drafts.{HasItsNumbers, row_of_draft, step_terms};
ghost use Rattle.geo_terms.specs.Stores.{Store};

use crate::lemmas::{
    Segments, along_row, crossing_row, end_at, foot_row, pythagoras_row, shared_row,
};
use fraction_poly::{RowDraft, Rows};
use geo_points::{NoMemory, PointId};
use geo_poly::Var;
use geo_terms::{Step, Steps};
use std::alloc::Global;

/// The rows of ratios by one lemma: 11, 12, 21, 22, 3, 4 or 0.
#[derive(Clone, Copy, Debug, PartialEq, Eq)]
pub struct RatioRows {
    /// The number of the lemma.
    pub lemma: u32,
}

impl Rows for RatioRows {
    ghost use Rattle.std.specs.Prelude.{◌==◌, not};
    ghost use Rattle.elim_ratio.specs.RatioTable.{ratio_table};

    ghost table = { λ rows. ratio_table rows.lemma };

    ghost looks = { λ rows. not (rows.lemma == 0) };

    fn draft(
        &self,
        alloc: Global,
        steps: &Steps,
        at: PointId,
        var: Var,
    ) -> Result<Option<RowDraft>, NoMemory> {
        ratio_row(alloc, self.lemma, steps, at, var)
    }
}

/// The row of a ratio by a lemma, as it is written.
fn ratio_row(
    alloc: Global,
    lemma: u32,
    steps: &Steps,
    at: PointId,
    var: Var,
) -> Result<Option<RowDraft>, NoMemory>
    requires { IsTrue (not (lemma == 0)) → at.0 < length steps.now.steps }
    ensures row { IfOk result (λ o. option_map (row_of_draft steps.now.nodes) o
        ≡ ratio_table lemma steps.now at var) }
    ensures numbers { IfOk result (λ o. ForSome o (HasItsNumbers steps.now.nodes)) }
{
    let Var::R(a, b, c, d) = var else {
        return Ok(None);
    };
    if lemma == 0 {
        return Ok(Some(pythagoras_row(alloc, a, b, c, d)?));
    }
    // From here on it is known that the steps' numbers stand in the store.
    prove!(at.0 < steps.count());
    let Some((a, turned)) = end_at(at, a, b) else {
        return Ok(None);
    };
    lemma_row(
        alloc,
        lemma,
        at,
        steps.step(at),
        Segments { a, turned, c, d },
    )
}

/// The row of a ratio by a lemma that looks at the step of Y.
fn lemma_row(
    alloc: Global,
    lemma: u32,
    y: PointId,
    step: Step,
    ratio: Segments,
) -> Result<Option<RowDraft>, NoMemory>
    ensures row { IfOk result (λ o. (nodes : Store) → option_map (row_of_draft nodes) o
        ≡ lemma_row lemma nodes y step ratio.a ratio.turned ratio.c ratio.d) }
    ensures terms { IfOk result (λ o. ForSome o (λ d. d.terms ≡ step_terms step)) }
{
    match step {
        Step::Inter { u, v, p, q } => match lemma {
            11 => crossing_row(alloc, u, v, p, q, ratio),
            12 => crossing_row(alloc, p, q, u, v, ratio),
            21 => shared_row(alloc, y, u, v, p, q, ratio),
            22 => shared_row(alloc, y, p, q, u, v, ratio),
            _ => Ok(None),
        },
        Step::Pratio { w, u, v, r } if lemma == 3 => along_row(alloc, w, u, v, r, ratio),
        Step::Foot { p, u, v } if lemma == 4 => foot_row(alloc, p, u, v, ratio),
        _ => Ok(None),
    }
}
