//! The numbers of steps that are known already.

ghost use Rattle.std.specs.Prelude.{◌≡◌, ◌<◌, IfOk, OnErr, OnOk, Option, Some, length};
ghost use Rattle.fraction_poly.specs.Forms.{step_number};
ghost use Rattle.fraction_poly.specs.Inner.Drafts.{number_tree};
ghost use Rattle.fraction_poly.specs.Inner.Known.{IsKnownOf, IsMade};
ghost use Rattle.fraction_poly.specs.Measures.{HasRoom, capped, numbers_of};
ghost use Rattle.geo_points.specs.declared.ids.TermId.{TermId};
ghost use Rattle.geo_terms.specs.Stores.{Store, tree_of};

use crate::measures::measure;
use crate::numbers::Numbers;
use crate::step_numbers::{StepNumber, one, step_number};
use geo_points::{NoMemory, TermId};
use geo_terms::Terms;
use std::alloc::Global;
use std::collections::HashMap;

/// Numbers of a store's terms. Each is measured when it is asked for first, and multiplied out when
/// a row first needs it; then both are kept.
#[derive(Drop)]
pub struct KnownNumbers {
    measured: HashMap<u32, Numbers>,
    made: HashMap<u32, StepNumber>,
    one: StepNumber,
}

impl KnownNumbers {
    /// No number is known yet.
    pub fn new(alloc: Global) -> Result<KnownNumbers, NoMemory>
        ensures { IfOk result (λ known. (nodes : Store) → IsKnownOf nodes known) }
    {
        Ok(KnownNumbers {
            measured: HashMap::new(alloc),
            made: HashMap::new(alloc),
            one: one(alloc)?,
        })
    }

    /// The numbers of the term at an index: what `measure` tells of it.
    pub fn measure(&mut self, alloc: Global, terms: &Terms, id: TermId) -> Result<Numbers, NoMemory>
        requires stored { id.0 < length terms.now }
        requires known { IsKnownOf terms.now self.old }
        ensures numbers { IfOk result (λ n. n ≡ capped (numbers_of (tree_of terms.now id))) }
        ensures known { IsKnownOf terms.now self.new }
        ensures made { self.new.made ≡ self.old.made }
        ensures kept { OnErr result (self.new.measured.entries ≡ self.old.measured.entries) }
    {
        if let Some(numbers) = self.measured.get(&id.0) {
            return Ok(*numbers);
        }
        let numbers = measure(alloc, terms, id)?;
        self.measured.insert(id.0, numbers)?;
        Ok(numbers)
    }

    /// The numbers of the term, and those of 1 where there is none.
    pub(crate) fn numbers(
        &mut self,
        alloc: Global,
        terms: &Terms,
        number: Option<TermId>,
    ) -> Result<Numbers, NoMemory>
        requires stored { (r : TermId) → number ≡ Some r → r.0 < length terms.now }
        requires known { IsKnownOf terms.now self.old }
        ensures numbers { IfOk result
            (λ n. n ≡ capped (numbers_of (number_tree terms.now number))) }
        ensures known { IsKnownOf terms.now self.new }
    {
        match number {
            None => Ok(Numbers::of_integer(1)),
            Some(id) => self.measure(alloc, terms, id),
        }
    }

    /// Multiplies the term out, where this has not been done yet.
    pub(crate) fn make(
        &mut self,
        alloc: Global,
        terms: &Terms,
        number: Option<TermId>,
    ) -> Result<(), NoMemory>
        requires stored { (r : TermId) → number ≡ Some r → r.0 < length terms.now }
        requires room { HasRoom (number_tree terms.now number) }
        requires known { IsKnownOf terms.now self.old }
        ensures made { OnOk result (IsMade self.new number) }
        ensures others { (other : Option TermId) → IsMade self.old other
            → IsMade self.new other }
        ensures known { IsKnownOf terms.now self.new }
    {
        let Some(id) = number else {
            return Ok(());
        };
        if self.made.contains_key(&id.0) {
            return Ok(());
        }
        let numbers = self.measure(alloc, terms, id)?;
        let made = step_number(alloc, terms, id, numbers)?;
        self.made.insert(id.0, made)?;
        Ok(())
    }

    /// The term multiplied out, and 1 where there is none.
    pub(crate) fn number(&self, number: Option<TermId>) -> &StepNumber
        requires { IsMade self.now number }
        ensures { (nodes : Store) → IsKnownOf nodes self.now
            → result.now ≡ step_number (number_tree nodes number) }
    {
        match number {
            None => &self.one,
            Some(id) => &self.made[&id.0],
        }
    }
}
