//! Runs one behind another, the last of which are summed up and multiplied.

use crate::multiples::put_multiples;
use crate::room::{join_parts, make_room, two_multiples_at};
use crate::terms::Term;
use std::alloc::{AllocError, Global};
use std::marker::Model;

/// Terms one behind another. Whoever holds them knows where a run begins.
#[derive(Drop)]
pub struct Runs<T: Term> {
    /// The terms, and room behind them.
    items: Vec<T>,
    /// How many terms there are.
    count: usize,
    /// Room for a run that is being summed up.
    spare: Vec<T>,
}

impl<T: Term> Model for Runs<T> {
    ghost use Rattle.std.specs.Prelude.{◌≤◌, ◌^◌, length, map, take};
    ghost use Rattle.sparse_lists.specs.Coefficients.{Pairs};

    ghost Value = { Pairs };

    ghost view = { λ r. map T.pair (take r.count r.items.items) };

    ghost invariant = { λ r. (r.count ≤ length r.items.items) × (r.count ≤ 2 ^ 40) };
}

impl<T: Term> Runs<T> {
    ghost use Rattle.std.specs.Prelude.{◌≡◌, ◌≢◌, ◌+◌, ◌*◌, ◌<◌, ◌≤◌, ◌++◌, ◌∷◌, [], OnErr, OnOk};
    ghost use Rattle.std.specs.Prelude.{drop, length, map, pos, slice_range, take, unsigned_abs};
    ghost use Rattle.std.specs.Ordering.{nat_cmp};
    ghost use Rattle.sparse_lists.specs.Coefficients.{scaled, sum_of};
    ghost use Rattle.sparse_lists.specs.SparseLists.{AllKeys};
    ghost use Rattle.term_runs.specs.Runs.{IsRun, KeysFit, norm_of, products, run_of};

    /// No terms.
    pub fn new(alloc: Global) -> Runs<T>
        ensures { result ≡ [] }
    {
        Runs {
            items: Vec::new(alloc),
            count: 0,
            spare: Vec::new(alloc),
        }
    }

    /// How many terms there are.
    pub fn len(&self) -> usize
        ensures { result ≡ length self.now }
    {
        self.count
    }

    /// The terms from a place on.
    pub fn terms_from(&self, base: usize) -> &[T]
        requires { base ≤ length self.now }
        ensures { map T.pair result.now ≡ drop base self.now }
    {
        &self.items[base..self.count]
    }

    /// Lets the terms from a place on go.
    pub fn truncate(&mut self, base: usize)
        requires { base ≤ length self.old }
        ensures { self.new ≡ take base self.old }
    {
        self.count = base;
    }

    /// Puts the multiple of a list behind the others.
    pub fn push_multiples(&mut self, term: T, list: &[T]) -> Result<(), AllocError>
        requires keys { AllKeys (λ j. (T.pair term).0 + j < T.keys) (map T.pair list.now) }
        requires norm { unsigned_abs (T.pair term).1 * norm_of (map T.pair list.now) < T.size }
        ensures terms { OnOk result (self.new ≡ self.old
            ++ scaled (T.pair term).0 (T.pair term).1 (map T.pair list.now)) }
        ensures err { OnErr result (self.new ≡ self.old) }
    {
        let end = self.count.saturating_add(list.len());
        make_room(&mut self.items, end)?;
        self.count = put_multiples(term, list, 0, self.items.as_mut_slice(), self.count);
        Ok(())
    }

    /// Puts the sum of the run times both terms behind the others.
    pub fn push_two_multiples(&mut self, first: T, second: T, list: &[T]) -> Result<(), AllocError>
        requires run { IsRun (map T.pair list.now) }
        requires first_some { (T.pair first).1 ≢ pos 0 }
        requires second_some { (T.pair second).1 ≢ pos 0 }
        requires first_keys { AllKeys (λ j. (T.pair first).0 + j < T.keys)
            (map T.pair list.now) }
        requires second_keys { AllKeys (λ j. (T.pair second).0 + j < T.keys)
            (map T.pair list.now) }
        requires norm { (unsigned_abs (T.pair first).1 + unsigned_abs (T.pair second).1)
            * norm_of (map T.pair list.now) < T.size }
        ensures sum { OnOk result (self.new ≡ self.old
            ++ run_of (scaled (T.pair first).0 (T.pair first).1 (map T.pair list.now)
            ++ scaled (T.pair second).0 (T.pair second).1 (map T.pair list.now))) }
        ensures err { OnErr result (self.new ≡ self.old) }
    {
        let end = self
            .count
            .saturating_add(list.len())
            .saturating_add(list.len());
        make_room(&mut self.items, end)?;
        self.count = two_multiples_at(first, second, list, self.items.as_mut_slice(), self.count);
        Ok(())
    }

    /// Puts the sum of the two last runs, which begin at these places, in their place.
    pub fn join(&mut self, base: usize, middle: usize) -> Result<(), AllocError>
        requires base { base ≤ middle }
        requires middle { middle ≤ length self.old }
        requires left { IsRun (slice_range self.old base middle) }
        requires right { IsRun (drop middle self.old) }
        requires fits { norm_of (slice_range self.old base middle)
            + norm_of (drop middle self.old) < T.size }
        ensures sum { OnOk result (self.new ≡ take base self.old
            ++ sum_of nat_cmp (slice_range self.old base middle) (drop middle self.old)) }
        ensures err { OnErr result (self.new ≡ self.old) }
    {
        self.count = join_parts(&mut self.items, &mut self.spare, base, middle, self.count)?;
        Ok(())
    }

    /// Puts the product of both runs behind the others, by halves of the left one, so that few terms
    /// are summed up often.
    fn push_by_halves(&mut self, left: &[T], right: &[T]) -> Result<(), AllocError>
        requires left { IsRun (map T.pair left.now) }
        requires right { IsRun (map T.pair right.now) }
        requires keys { KeysFit T.keys (map T.pair left.now) (map T.pair right.now) }
        requires norm { norm_of (map T.pair left.now) * norm_of (map T.pair right.now) < T.size }
        ensures { OnOk result (self.new ≡ self.old
            ++ run_of (products (map T.pair left.now) (map T.pair right.now))) }
    {
        match left {
            [] => Ok(()),
            [term] => self.push_multiples(*term, right),
            [first, second] => self.push_two_multiples(*first, *second, right),
            _ => {
                let (front, back) = left.split_at(left.len() / 2);
                let base = self.len();
                self.push_by_halves(front, right)?;
                let middle = self.len();
                self.push_by_halves(back, right)?;
                self.join(base, middle)
            }
        }
    }

    /// Puts the product of both runs behind the others, by halves of the shorter one.
    pub fn push_product(&mut self, left: &[T], right: &[T]) -> Result<(), AllocError>
        requires left { IsRun (map T.pair left.now) }
        requires right { IsRun (map T.pair right.now) }
        requires keys { KeysFit T.keys (map T.pair left.now) (map T.pair right.now) }
        requires norm { norm_of (map T.pair left.now) * norm_of (map T.pair right.now) < T.size }
        ensures { OnOk result (self.new ≡ self.old
            ++ run_of (products (map T.pair left.now) (map T.pair right.now))) }
    {
        if left.len() <= right.len() {
            self.push_by_halves(left, right)
        } else {
            self.push_by_halves(right, left)
        }
    }

    /// Puts a term behind the others.
    pub fn push(&mut self, term: T) -> Result<(), AllocError>
        ensures term { OnOk result (self.new ≡ self.old ++ T.pair term ∷ []) }
        ensures err { OnErr result (self.new ≡ self.old) }
    {
        let place = self.count;
        make_room(&mut self.items, place + 1)?;
        self.items[place] = term;
        self.count = place + 1;
        Ok(())
    }

    /// Puts the product of the last run, which begins at the place, and of the other one in its
    /// place. The last run is copied aside.
    pub fn multiply(
        &mut self,
        aside: &mut Vec<T>,
        base: usize,
        factor: &[T],
    ) -> Result<(), AllocError>
        requires base { base ≤ length self.old }
        requires run { IsRun (drop base self.old) }
        requires factor { IsRun (map T.pair factor.now) }
        requires keys { KeysFit T.keys (drop base self.old) (map T.pair factor.now) }
        requires norm { norm_of (drop base self.old) * norm_of (map T.pair factor.now) < T.size }
        ensures { OnOk result (self.new ≡ take base self.old
            ++ run_of (products (drop base self.old) (map T.pair factor.now))) }
    {
        aside.clear();
        aside.extend_from_slice(self.terms_from(base))?;
        self.truncate(base);
        self.push_product(aside.as_slice(), factor)
    }
}
