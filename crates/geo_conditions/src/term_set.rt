//! Terms of a store, which are found by their numbers.

ghost use Rattle.std.specs.Prelude.{◌≡◌, ◌≢◌, ◌<◌, [], ℕ, OnOk, false, length, slice_index_or, true};

use geo_points::{NoMemory, TermId};
use std::alloc::Global;
use std::marker::Model;

/// Terms of a store. Contracts see for each number up to the greatest whether its term is among them.
pub struct TermSet {
    marks: Vec<bool>,
}

/// By hand, so that a caller's proof sees one call where the marks are let go.
impl Drop for TermSet {
    fn drop(self) {
        let TermSet { marks: _ } = self;
    }
}

impl Model for TermSet {
    ghost use Rattle.std.specs.Prelude.{Bool, List};

    ghost Value = { List Bool };

    ghost view = { λ set. set.marks.items };
}

impl TermSet {
    /// No terms.
    pub fn new(alloc: Global) -> TermSet
        ensures { result ≡ [] }
    {
        TermSet {
            marks: Vec::new(alloc),
        }
    }

    /// Whether the term is among them.
    pub fn contains(&self, term: TermId) -> bool
        ensures { result ≡ slice_index_or self.now term.0 false }
    {
        match self.marks.get(term.0 as usize) {
            Some(mark) => *mark,
            None => false,
        }
    }

    /// The term is among them, and so are those that were.
    pub fn insert(&mut self, term: TermId) -> Result<(), NoMemory>
        ensures others { OnOk result ((i : ℕ) → i ≢ term.0
            → slice_index_or self.new i false ≡ slice_index_or self.old i false) }
        ensures term { OnOk result (slice_index_or self.new term.0 false ≡ true) }
    {
        room_for(&mut self.marks, term)?;
        self.marks[term.0 as usize] = true;
        Ok(())
    }
}

/// Makes room for the mark of a term. No term more is marked.
#[tactic(auto, using(crate::proofs::Marks::with_room))]
fn room_for(marks: &mut Vec<bool>, term: TermId) -> Result<(), NoMemory>
    ensures room { OnOk result (term.0 < length marks.new.items) }
    ensures same { OnOk result ((i : ℕ) →
        slice_index_or marks.new.items i false ≡ slice_index_or marks.old.items i false) }
{
    let count = term.0 as usize + 1;
    if marks.len() < count {
        marks.resize(count, false)?;
    }
    Ok(())
}
