//! Multiples of a run by terms.

ghost use Rattle.std.specs.Prelude.{◌≡◌, ◌≢◌, ◌+◌, ◌*◌, ◌<◌, ◌≤◌, ◌^◌, ◌++◌, drop, length, map, pos, take};
ghost use Rattle.std.specs.Prelude.{unsigned_abs};
ghost use Rattle.sparse_lists.specs.SparseLists.{AllKeys};
ghost use Rattle.sparse_lists.specs.Coefficients.{scaled};
ghost use Rattle.term_runs.specs.Runs.{IsRun, norm_of, run_of};

use crate::merging::{count_of, next_turn};
use crate::terms::Term;

/// Puts the list from a place on, times the term, into the room from another place on. It answers
/// where the product ends.
pub(crate) fn put_multiples<T: Term>(
    term: T,
    list: &[T],
    from: usize,
    room: &mut [T],
    at: usize,
) -> usize
    requires from { from ≤ length list.now }
    requires room { at + length list.now ≤ length room.old + from }
    requires keys { AllKeys (λ j. (T.pair term).0 + j < T.keys) (map T.pair list.now) }
    requires norm { unsigned_abs (T.pair term).1 * norm_of (map T.pair list.now) < T.size }
    ensures place { result + from ≡ at + length list.now }
    ensures terms { map T.pair (take result room.new) ≡ map T.pair (take at room.old)
        ++ drop from (scaled (T.pair term).0 (T.pair term).1 (map T.pair list.now)) }
{
    let mut i = from;
    let mut k = at;
    while i < list.len() {
        room[k] = term.times(list[i]);
        i += 1;
        k += 1;
    }
    k
}

/// Puts the sum of the run times both terms into the front of the room. It answers where it ends.
pub(crate) fn put_two_multiples<T: Term>(first: T, second: T, list: &[T], room: &mut [T]) -> usize
    requires run { IsRun (map T.pair list.now) }
    requires first_some { (T.pair first).1 ≢ pos 0 }
    requires second_some { (T.pair second).1 ≢ pos 0 }
    requires room { 2 * length list.now ≤ length room.old }
    requires small { length room.old < 2 ^ 63 }
    requires first_keys { AllKeys (λ j. (T.pair first).0 + j < T.keys) (map T.pair list.now) }
    requires second_keys { AllKeys (λ j. (T.pair second).0 + j < T.keys) (map T.pair list.now) }
    requires norm { (unsigned_abs (T.pair first).1 + unsigned_abs (T.pair second).1)
        * norm_of (map T.pair list.now) < T.size }
    ensures within { result ≤ 2 * length list.now }
    ensures sum { map T.pair (take result room.new)
        ≡ run_of (scaled (T.pair first).0 (T.pair first).1 (map T.pair list.now)
        ++ scaled (T.pair second).0 (T.pair second).1 (map T.pair list.now)) }
{
    let count = list.len();
    let mut i = 0;
    let mut j = 0;
    let mut k = 0;
    while i < count && j < count {
        let turn = next_turn(first.times(list[i]), second.times(list[j]));
        room[k] = turn.term;
        i += turn.left;
        j += turn.right;
        k += count_of(turn.term);
    }
    let k = put_multiples(first, list, i, room, k);
    put_multiples(second, list, j, room, k)
}
