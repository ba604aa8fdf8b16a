//! What becomes of the monomials of a line, power by power.

ghost use Rattle.std.specs.Prelude.{◌≡◌, [], IfOk, IfSome, List, Some, slice_get};
ghost use Rattle.elim_apply.specs.Inner.KeptShares.{AreKept};
ghost use Rattle.elim_apply.specs.Inner.Shares.{AreShares, IsShareOf, IsWithPower};
ghost use Rattle.elim_apply.specs.Inner.Sketches.{AreKnown, AreRising, sketches};
ghost use Rattle.geo_poly.specs.declared.rows.Row.{Row};
ghost use Rattle.geo_poly.specs.declared.variables.Var.{Var};
ghost use Rattle.geo_poly.specs.Monomials.{IsMonomial, Powers};
ghost use Rattle.geo_poly.specs.Replace.{AllPowersSmall, row_of};
ghost use Rattle.geo_poly.specs.Shared.{AreParts, IsIndexOf, told_powers};

use crate::kept_shares::KeptShares;
use crate::known_rows::known_rows;
use crate::numbered::NumberedRow;
use crate::share::Share;
use crate::small_shares::small_share_of;
use geo_points::NoMemory;
use geo_poly::{FirstPower, Shared};
use mono_store::MonoId;
use std::alloc::Global;

/// The shares of the monomials, term by term.
pub(crate) fn shares_of(
    alloc: Global,
    rows: &[NumberedRow],
    p: &Shared,
) -> Result<Vec<Share>, NoMemory>
    requires powers { AllPowersSmall (sketches rows.now) }
    requires rising { AreRising rows.now }
    requires parts { AreParts p.now }
    ensures { IfOk result (λ shares. AreShares (sketches rows.now) p.now shares.items) }
{
    let known = known_rows(alloc, rows, p.vars)?;
    let mut kept = KeptShares::new(alloc, p.list.len(), first_index(p))?;
    let mut shares = Vec::with_capacity(alloc, p.list.len())?;
    for (id, _) in p.list {
        shares.push(share_of(p, &known, &mut kept, *id))?;
    }
    Ok(shares)
}

/// The index of the first monomial, which is the greatest where it is a word.
fn first_index(p: &Shared) -> u64 {
    match p.list.first() {
        Some((id, _)) => id.0,
        None => 0,
    }
}

/// The share of the monomial at an index. Mostly it is a word, and its share is small.
fn share_of(p: &Shared, known: &[Option<NumberedRow>], kept: &mut KeptShares, id: MonoId) -> Share
    requires index { IsIndexOf p.now id }
    requires monomial { IsMonomial (told_powers p.now id) }
    requires kept { AreKept known.now p.now.monos.now.limits kept.old }
    ensures share { (rows : List Row) → AllPowersSmall rows → AreKnown rows p.now.vars.now known.now
        → IsShareOf rows (told_powers p.now id) 1 result }
    ensures kept { AreKept known.now p.now.monos.now.limits kept.new }
{
    match word_share_of(p, known, kept, id) {
        Some(share) => share,
        None => other_share_of(p, known, id),
    }
}

/// The share of the monomial at an index, where this is a word and the share is small.
fn word_share_of(
    p: &Shared,
    known: &[Option<NumberedRow>],
    kept: &mut KeptShares,
    id: MonoId,
) -> Option<Share>
    requires index { IsIndexOf p.now id }
    requires kept { AreKept known.now p.now.monos.now.limits kept.old }
    ensures share { (rows : List Row) → AreKnown rows p.now.vars.now known.now
        → IfSome result (IsShareOf rows (told_powers p.now id) 1) }
    ensures kept { AreKept known.now p.now.monos.now.limits kept.new }
{
    if id.0 >= p.monos.words() {
        return None;
    }
    let share = kept.share_of(p.monos.digits(), known, id.0)?;
    Some(share.widened())
}

/// The share of the monomial at an index, which is mostly small.
fn other_share_of(p: &Shared, known: &[Option<NumberedRow>], id: MonoId) -> Share
    requires index { IsIndexOf p.now id }
    requires monomial { IsMonomial (told_powers p.now id) }
    ensures { (rows : List Row) → AllPowersSmall rows → AreKnown rows p.now.vars.now known.now
        → IsShareOf rows (told_powers p.now id) 1 result }
{
    match small_share_of(p, known, id) {
        Some(share) => share,
        None => wide_share_of(p, known, id),
    }
}

/// The share of the monomial at an index, in wide numbers.
fn wide_share_of(p: &Shared, known: &[Option<NumberedRow>], id: MonoId) -> Share
    requires index { IsIndexOf p.now id }
    requires monomial { IsMonomial (told_powers p.now id) }
    ensures { (rows : List Row) → AllPowersSmall rows → AreKnown rows p.now.vars.now known.now
        → IsShareOf rows (told_powers p.now id) 1 result }
{
    let mut share = Share::of_one();
    let mut rest = id;
    while let Some(first) = p.first_power(rest) {
        share = with_power(share, known, &first);
        rest = first.rest;
    }
    share
}

/// The share with one more power.
fn with_power(share: Share, known: &[Option<NumberedRow>], first: &FirstPower) -> Share
    ensures { (rows : List Row) (vars : List Var) → AreKnown rows vars known.now
        → slice_get vars first.now.number ≡ Some first.now.var
        → IsWithPower (row_of rows first.now.var) first.now.exponent share result }
{
    let Some(entry) = known.get(first.number as usize) else {
        return share.keeping(first.exponent);
    };
    match entry {
        Some(row) => share.replacing(&row.numbers, first.exponent),
        None => share.keeping(first.exponent),
    }
}
