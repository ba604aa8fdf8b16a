//! Where a variable stands in a list of variables.

ghost use Rattle.std.specs.Prelude.{IfSome, Some};
ghost use Rattle.std.specs.List.Sorted.{IsStrictlySortedBy};
ghost use Rattle.geo_poly.specs.Variables.{var_cmp};
ghost use Rattle.geo_poly.specs.Inner.Moved.{IsPlaceOf};

use crate::variables::Var;
use std::cmp::Ordering;

/// A variable is looked for at so many places before all are searched.
const NEAR: usize = 8;

/// The place of a variable in the list, where it stands there and it is found: it is looked for near
/// the place where it is supposed to stand, and is not searched where it would stand there.
pub(crate) fn guessed_place(vars: &[Var], v: Var, guess: u64) -> Option<u64>
    requires { IsStrictlySortedBy var_cmp vars.now }
    ensures { IfSome result (λ k. IsPlaceOf vars.now v (Some k)) }
{
    let place = guess as usize;
    let order = match vars.get(place) {
        Some(w) => w.cmp(&v),
        None => Ordering::Greater,
    };
    match order {
        Ordering::Equal => Some(guess),
        Ordering::Less => near_place(vars, v, place),
        Ordering::Greater => {
            if is_behind(vars, place, v) {
                return None;
            }
            searched_place(vars, v)
        }
    }
}

/// Whether a variable comes after the one before a place.
fn is_behind(vars: &[Var], place: usize, v: Var) -> bool {
    place == 0
        || match vars.get(place - 1) {
            Some(w) => *w < v,
            None => false,
        }
}

/// The place of a variable, which stands behind a place, and mostly not far.
fn near_place(vars: &[Var], v: Var, place: usize) -> Option<u64>
    requires { IsStrictlySortedBy var_cmp vars.now }
    ensures { IfSome result (λ k. IsPlaceOf vars.now v (Some k)) }
{
    let first = place.saturating_add(1);
    let near = first.saturating_add(NEAR).min(vars.len());
    for i in first..near {
        if vars[i] == v {
            return Some(i as u64);
        }
    }
    searched_place(vars, v)
}

/// The place of a variable in the list, where it stands there. It is looked for first where it is
/// supposed to stand.
pub(crate) fn find_place(vars: &[Var], v: Var, guess: u64) -> Option<u64>
    requires { IsStrictlySortedBy var_cmp vars.now }
    ensures { IsPlaceOf vars.now v result }
{
    match vars.get(guess as usize) {
        Some(w) if *w == v => Some(guess),
        _ => searched_place(vars, v),
    }
}

/// The place of a variable in the list, where it stands there, by a search.
fn searched_place(vars: &[Var], v: Var) -> Option<u64>
    requires { IsStrictlySortedBy var_cmp vars.now }
    ensures { IsPlaceOf vars.now v result }
{
    match vars.binary_search(&v) {
        Ok(place) => Some(place as u64),
        Err(_) => None,
    }
}
