//! The sum of two runs, in the place of the second.

ghost use Rattle.std.specs.Prelude.{◌≡◌, ◌+◌, ◌<◌, ◌≤◌, ◌^◌, ◌++◌, drop, length, map, take};
ghost use Rattle.std.specs.Prelude.{unsigned_abs};
ghost use Rattle.std.specs.Ordering.{nat_cmp};
ghost use Rattle.sparse_lists.specs.Coefficients.{sum_of};
ghost use Rattle.term_runs.specs.Inner.{CountsAs, IsTurn};
ghost use Rattle.term_runs.specs.Runs.{IsRun, norm_of};

use crate::terms::Term;

/// What comes next in a sum: a term, and how many terms of each run are taken.
#[derive(Clone, Copy)]
pub(crate) struct Turn<T: Term> {
    pub term: T,
    pub left: usize,
    pub right: usize,
}

/// The next term, where these are the first ones of both runs.
#[inline(always)]
pub(crate) fn next_turn<T: Term>(left: T, right: T) -> Turn<T>
    requires { unsigned_abs (T.pair left).1 + unsigned_abs (T.pair right).1 < T.size }
    ensures { IsTurn (T.pair left) (T.pair right) (T.pair result.term) result.left result.right }
{
    let is_left = !right.is_before(left);
    let is_right = !left.is_before(right);
    Turn {
        term: left.taken(right, is_left, is_right),
        left: is_left as usize,
        right: is_right as usize,
    }
}

/// How much the term counts: one that is 0 falls away.
#[inline(always)]
pub(crate) fn count_of<T: Term>(term: T) -> usize
    ensures { CountsAs (T.pair term).1 result }
{
    if term.is_zero() { 0 } else { 1 }
}

/// Puts the sum of the run and of the one that stands in the room behind a gap as long as it into
/// the front of the room. It answers how many terms it has.
pub(crate) fn merge<T: Term>(left: &[T], room: &mut [T]) -> usize
    requires gap { length left.now ≤ length room.old }
    requires small { length room.old < 2 ^ 63 }
    requires left { IsRun (map T.pair left.now) }
    requires right { IsRun (map T.pair (drop (length left.now) room.old)) }
    requires fits { norm_of (map T.pair left.now)
        + norm_of (map T.pair (drop (length left.now) room.old)) < T.size }
    ensures within { result ≤ length room.old }
    ensures sum { map T.pair (take result room.new) ≡ sum_of nat_cmp (map T.pair left.now)
        (map T.pair (drop (length left.now) room.old)) }
{
    let gap = left.len();
    let count = room.len() - gap;
    let mut i = 0;
    let mut j = 0;
    let mut k = 0;
    while i < gap && j < count {
        let turn = next_turn(left[i], room[gap + j]);
        room[k] = turn.term;
        i += turn.left;
        j += turn.right;
        k += count_of(turn.term);
    }
    if i < gap {
        put_rest(&left[i..], room, k)
    } else {
        move_rest(room, gap + j, k)
    }
}

/// Puts the terms into the room from a place on. It answers where they end.
fn put_rest<T: Term>(rest: &[T], room: &mut [T], at: usize) -> usize
    requires { at + length rest.now ≤ length room.old }
    ensures within { result ≤ length room.old }
    ensures room { take result room.new ≡ take at room.old ++ rest.now }
{
    let end = at + rest.len();
    room[at..end].copy_from_slice(rest);
    end
}

/// Moves the terms from a place on to another place before it. It answers where they end.
fn move_rest<T: Term>(room: &mut [T], from: usize, at: usize) -> usize
    requires at { at ≤ from }
    requires from { from ≤ length room.old }
    ensures within { result ≤ length room.old }
    ensures room { take result room.new ≡ take at room.old ++ drop from room.old }
{
    let count = room.len() - from;
    room.copy_within(from.., at);
    at + count
}
