//! What terms that are to be replaced share of their factors, and where to split them.

ghost use Rattle.std.specs.Prelude.{◌≡◌, ◌+◌, ◌^◌, ◌<◌, ◌≤◌, All, IsTrue, drop, length, take};

use crate::pending::Pending;

/// So many times terms are split by their factors, and then by halves, so that no call goes deep.
const MOST_SPLITS: u32 = 200;

/// How many of the first factors both have in common, and at most so many.
fn common_factors(left: &[usize], right: &[usize], most: usize) -> usize
    ensures most { result ≤ most }
    ensures common { take result right.now ≡ take result left.now }
{
    let mut i = 0;
    while i < most && i < left.len() && i < right.len() && left[i] == right[i] {
        i += 1;
    }
    i
}

/// Whether the factors at a place and behind it begin with the first of others, so many.
fn begin_with(factors: &[usize], depth: usize, first: &[usize], count: usize) -> bool
    requires within { count ≤ length first.now }
    requires bound { depth + count < 2 ^ 64 }
    ensures { IsTrue result → take count (drop depth factors.now) ≡ take count first.now }
{
    if factors.len() < depth + count {
        return false;
    }
    for i in 0..count {
        if factors[depth + i] != first[i] {
            return false;
        }
    }
    true
}

/// How many of these factors the last term has at a place and behind it. Where the terms are in order,
/// all others have as many.
fn shared_with_last(first: &[usize], pending: &[Pending], depth: usize) -> usize
    ensures within { result ≤ length first.now }
    ensures bound { depth + result < 2 ^ 64 }
{
    let most = first.len().min(usize::MAX - depth);
    match pending.last() {
        Some(term) => common_factors(first, term.factors_from(depth), most),
        None => most,
    }
}

/// How many of these factors all the terms have at a place and behind it.
pub(crate) fn shared_factors(first: &[usize], pending: &[Pending], depth: usize) -> usize
    ensures bound { depth + result < 2 ^ 64 }
    ensures shared { All (λ e. take result (drop depth e.factors.now) ≡ take result first.now)
        pending.now }
{
    let mut shared = shared_with_last(first, pending, depth);
    for term in pending {
        if shared == 0 {
            return 0;
        }
        if !begin_with(term.factors, depth, first, shared) {
            shared = common_factors(first, term.factors_from(depth), shared);
        }
    }
    shared
}

/// The factor of a term at a place and one more, and 0 where it has none there.
fn factor_at(term: &Pending, depth: usize) -> usize {
    match term.factors.get(depth) {
        Some(factor) => factor.saturating_add(1),
        None => 0,
    }
}

/// Whether the term before a place has another factor than the term at it.
fn is_boundary(pending: &[Pending], i: usize, depth: usize) -> bool
    requires some { 0 < i }
    requires within { i < length pending.now }
{
    factor_at(&pending[i - 1], depth) != factor_at(&pending[i], depth)
}

/// Where to split the terms: where the next factor changes, as near to the middle as can be; and in
/// the middle, where it changes nowhere, or where the terms were split so often that they are to get
/// few at once. Nothing rests on it but time.
pub(crate) fn split_place(pending: &[Pending], depth: usize, splits: u32) -> usize
    requires { 2 ≤ length pending.now }
    ensures some { 0 < result }
    ensures within { result < length pending.now }
{
    let middle = pending.len() / 2;
    if splits >= MOST_SPLITS {
        return middle;
    }
    for k in 0..pending.len() - middle {
        if k < middle && is_boundary(pending, middle - k, depth) {
            return middle - k;
        }
        if is_boundary(pending, middle + k, depth) {
            return middle + k;
        }
    }
    middle
}
