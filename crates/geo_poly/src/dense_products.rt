//! Products over words that are few for so many products of terms: the coefficients add up at the
//! places of their words.

ghost use Rattle.std.specs.Prelude.{◌≡◌, ◌≢◌, ℕ, ◌+◌, ◌^◌, ◌<◌, pos, ◌+ℤ◌, IfOk, length, map};
ghost use Rattle.std.specs.Prelude.{slice_index_or, unsigned_abs};
ghost use Rattle.std.specs.List.Sorted.{IsStrictlySortedBy};
ghost use Rattle.sparse_lists.specs.SparseLists.{AllKeys};
ghost use Rattle.geo_poly.specs.Chained.{indexed_pair};
ghost use Rattle.geo_poly.specs.Inner.Keyed.{AreInReach, IsIndexUnder, terms_under};
ghost use Rattle.geo_poly.specs.Inner.Words.{word_keys};
ghost use Rattle.geo_poly.specs.Inner.WordSums.{AreSums, nonzero_below, size_of, sum_at};
ghost use Rattle.geo_poly.specs.Inner.WordSums.{word_multiples, word_products};
ghost use Rattle.geo_poly.specs.Polynomials.{CanMultiply, product_of};
ghost use Rattle.geo_poly.specs.Variables.{var_cmp};

use crate::shared::Indexed;
use crate::variables::Var;
use geo_points::NoMemory;
use mono_store::{Digits, MonoId};
use std::alloc::Global;

/// The most words that have places, for the sake of memory.
const MOST_PLACES: u64 = 1 << 22;

/// Whether the words are few for so many products of terms. Nothing rests on it but time.
pub(crate) fn is_dense(words: &Digits, left: &[Indexed], right: &[Indexed]) -> bool {
    let products = (left.len() as u64).saturating_mul(right.len() as u64);
    words.words() <= MOST_PLACES && words.words() / 8 <= products
}

/// The list of the product, over words.
pub(crate) fn dense_product(
    alloc: Global,
    words: &Digits,
    vars: &[Var],
    left: &[Indexed],
    right: &[Indexed],
) -> Result<Vec<Indexed>, NoMemory>
    requires rising { IsStrictlySortedBy var_cmp vars.now }
    requires left { AllKeys (IsIndexUnder vars.now (word_keys words.now)) left.now }
    requires right { AllKeys (IsIndexUnder vars.now (word_keys words.now)) right.now }
    requires fits { CanMultiply (terms_under vars.now (word_keys words.now) left.now)
        (terms_under vars.now (word_keys words.now) right.now) }
    requires reach { AreInReach vars.now (word_keys words.now)
        (terms_under vars.now (word_keys words.now) left.now)
        (terms_under vars.now (word_keys words.now) right.now) }
    ensures indices { IfOk result
        (λ list. AllKeys (IsIndexUnder vars.now (word_keys words.now)) list.items) }
    ensures product { IfOk result (λ list. terms_under vars.now (word_keys words.now) list.items
        ≡ product_of (terms_under vars.now (word_keys words.now) left.now)
        (terms_under vars.now (word_keys words.now) right.now)) }
{
    let _ = vars;
    let sums = sums_of_products(alloc, words.words(), left, right)?;
    nonzero_terms(alloc, &sums)
}

/// For each word the sum of the products of terms that have it.
fn sums_of_products(
    alloc: Global,
    words: u64,
    left: &[Indexed],
    right: &[Indexed],
) -> Result<Vec<i128>, NoMemory>
    requires words { AllKeys (λ w. w < words) (word_products left.now right.now) }
    requires fits { size_of (word_products left.now right.now) < 2 ^ 127 }
    ensures whole { IfOk result (λ sums. length sums.items ≡ words) }
    ensures sums { IfOk result (λ sums. AreSums (word_products left.now right.now) sums.items) }
{
    let mut sums = Vec::new(alloc);
    sums.resize(words as usize, 0)?;
    for term in left {
        add_multiples(&mut sums, *term, right);
    }
    Ok(sums)
}

/// Adds the list times the one term to the sums.
fn add_multiples(sums: &mut Vec<i128>, t: Indexed, list: &[Indexed])
    requires words { AllKeys (λ w. w < length sums.old.items) (word_multiples t list.now) }
    requires fits { (w : ℕ) → w < length sums.old.items
        → unsigned_abs (slice_index_or sums.old.items w (pos 0)) + size_of (word_multiples t list.now)
        < 2 ^ 127 }
    ensures whole { length sums.new.items ≡ length sums.old.items }
    ensures sums { (w : ℕ) → w < length sums.old.items → slice_index_or sums.new.items w (pos 0)
        ≡ slice_index_or sums.old.items w (pos 0) +ℤ sum_at w (word_multiples t list.now) }
{
    for (id, coefficient) in list {
        add_at(sums, t.0.0 + id.0, t.1 * *coefficient);
    }
}

/// Adds to the sum at a place.
fn add_at(sums: &mut Vec<i128>, place: u64, summand: i128)
    requires place { place < length sums.old.items }
    requires fits { unsigned_abs (slice_index_or sums.old.items place (pos 0))
        + unsigned_abs summand < 2 ^ 127 }
    ensures whole { length sums.new.items ≡ length sums.old.items }
    ensures place { slice_index_or sums.new.items place (pos 0)
        ≡ slice_index_or sums.old.items place (pos 0) +ℤ summand }
    ensures others { (w : ℕ) → w ≢ place
        → slice_index_or sums.new.items w (pos 0) ≡ slice_index_or sums.old.items w (pos 0) }
{
    sums[place as usize] += summand;
}

/// The words whose sums are not 0, the greatest first.
fn nonzero_terms(alloc: Global, sums: &[i128]) -> Result<Vec<Indexed>, NoMemory>
    ensures { IfOk result
        (λ list. list.items ≡ map indexed_pair (nonzero_below sums.now (length sums.now))) }
{
    let mut list = Vec::with_capacity(alloc, count_nonzero(sums))?;
    let mut word = sums.len();
    while word > 0 {
        word -= 1;
        let sum = sums[word];
        if sum != 0 {
            list.push((MonoId(word as u64), sum))?;
        }
    }
    Ok(list)
}

/// How many sums are not 0. Nothing rests on it but time.
fn count_nonzero(sums: &[i128]) -> usize {
    let mut count = 0usize;
    for sum in sums {
        if *sum != 0 {
            count = count.saturating_add(1);
        }
    }
    count
}
