//! Sums and multiples of runs in one room, in which terms stand one behind another.

ghost use Rattle.std.specs.Prelude.{◌≡◌, ◌≢◌, ◌+◌, ◌*◌, ◌<◌, ◌≤◌, ◌^◌, ◌++◌, ℕ, IfOk, OnErr, OnOk};
ghost use Rattle.std.specs.Prelude.{drop, length, map, pos, slice_range, take, unsigned_abs};
ghost use Rattle.std.specs.Ordering.{nat_cmp};
ghost use Rattle.sparse_lists.specs.Coefficients.{scaled, sum_of};
ghost use Rattle.sparse_lists.specs.SparseLists.{AllKeys};
ghost use Rattle.term_runs.specs.Runs.{IsRun, norm_of, run_of};

use crate::merging::merge;
use crate::multiples::put_two_multiples;
use crate::terms::Term;
use std::alloc::AllocError;

/// There is no room for more terms.
const MOST_TERMS: usize = 1 << 40;

/// Makes sure that there are so many terms, with fillers behind those that were there.
pub(crate) fn make_room<T: Term>(items: &mut Vec<T>, wanted: usize) -> Result<(), AllocError>
    ensures room { OnOk result (wanted ≤ length items.new.items) }
    ensures small { OnOk result (wanted ≤ 2 ^ 40) }
    ensures kept { (n : ℕ) → n ≤ length items.old.items
        → take n items.new.items ≡ take n items.old.items }
    ensures more { length items.old.items ≤ length items.new.items }
{
    if wanted > MOST_TERMS {
        return Err(AllocError);
    }
    if items.len() < wanted {
        items.resize(wanted, T::filler())?;
    }
    Ok(())
}

/// Puts the sum of the run and of the terms behind a gap as long as it, between two places, into
/// these terms from the first place on. It answers where the sum ends.
fn merge_at<T: Term>(left: &[T], items: &mut [T], from: usize, end: usize) -> usize
    requires gap { from + length left.now ≤ end }
    requires end { end ≤ length items.old }
    requires small { end < 2 ^ 63 }
    requires left { IsRun (map T.pair left.now) }
    requires right { IsRun (map T.pair (drop (length left.now) (slice_range items.old from end))) }
    requires fits { norm_of (map T.pair left.now)
        + norm_of (map T.pair (drop (length left.now) (slice_range items.old from end))) < T.size }
    ensures within { result ≤ end }
    ensures len { length items.new ≡ length items.old }
    ensures sum { map T.pair (take result items.new) ≡ map T.pair (take from items.old)
        ++ sum_of nat_cmp (map T.pair left.now)
        (map T.pair (drop (length left.now) (slice_range items.old from end))) }
{
    let count = merge(left, &mut items[from..end]);
    from + count
}

/// Puts the sum of the two runs between the three places into the place of the first. It answers
/// where the sum ends.
pub(crate) fn join_parts<T: Term>(
    items: &mut Vec<T>,
    spare: &mut Vec<T>,
    base: usize,
    middle: usize,
    end: usize,
) -> Result<usize, AllocError>
    requires base { base ≤ middle }
    requires middle { middle ≤ end }
    requires end { end ≤ length items.old.items }
    requires small { end < 2 ^ 63 }
    requires left { IsRun (map T.pair (slice_range items.old.items base middle)) }
    requires right { IsRun (map T.pair (slice_range items.old.items middle end)) }
    requires fits { norm_of (map T.pair (slice_range items.old.items base middle))
        + norm_of (map T.pair (slice_range items.old.items middle end)) < T.size }
    ensures within { IfOk result (λ n. n ≤ end) }
    ensures len { length items.new.items ≡ length items.old.items }
    ensures sum { IfOk result (λ n. map T.pair (take n items.new.items)
        ≡ map T.pair (take base items.old.items)
        ++ sum_of nat_cmp (map T.pair (slice_range items.old.items base middle))
        (map T.pair (slice_range items.old.items middle end))) }
    ensures err { OnErr result (items.new ≡ items.old) }
{
    spare.clear();
    spare.extend_from_slice(&items[base..middle])?;
    Ok(merge_at(spare.as_slice(), items.as_mut_slice(), base, end))
}

/// Puts the sum of the run times both terms behind the first terms, so many. It answers where the
/// sum ends.
pub(crate) fn two_multiples_at<T: Term>(
    first: T,
    second: T,
    list: &[T],
    items: &mut [T],
    at: usize,
) -> usize
    requires run { IsRun (map T.pair list.now) }
    requires first_some { (T.pair first).1 ≢ pos 0 }
    requires second_some { (T.pair second).1 ≢ pos 0 }
    requires room { at + 2 * length list.now ≤ length items.old }
    requires small { length items.old < 2 ^ 63 }
    requires first_keys { AllKeys (λ j. (T.pair first).0 + j < T.keys) (map T.pair list.now) }
    requires second_keys { AllKeys (λ j. (T.pair second).0 + j < T.keys) (map T.pair list.now) }
    requires norm { (unsigned_abs (T.pair first).1 + unsigned_abs (T.pair second).1)
        * norm_of (map T.pair list.now) < T.size }
    ensures within { result ≤ at + 2 * length list.now }
    ensures len { length items.new ≡ length items.old }
    ensures sum { map T.pair (take result items.new) ≡ map T.pair (take at items.old)
        ++ run_of (scaled (T.pair first).0 (T.pair first).1 (map T.pair list.now)
        ++ scaled (T.pair second).0 (T.pair second).1 (map T.pair list.now)) }
{
    let count = put_two_multiples(first, second, list, &mut items[at..]);
    at + count
}
