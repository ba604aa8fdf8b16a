//! What chains have shown so far.

ghost use Rattle.std.specs.Prelude.{◌≡◌, ◌∷◌, ◌++◌, [], OnErr, OnOk};
ghost use Rattle.std.specs.List.{cons_option};

use crate::chains::WorkedChain;
use geo_points::NoMemory;
use geo_poly::Poly;
use geo_poly::lists::{Polys, Vars};
use std::alloc::Global;

/// What the chains so far have shown.
#[derive(Drop)]
pub struct Findings {
    /// The variables that are not 0.
    pub known: Vars,
    /// The polynomials that are not 0: those at the ends of chains.
    pub ends: Polys,
}

impl Findings {
    /// Nothing yet.
    pub fn new(alloc: Global) -> Findings
        ensures known { result.known ≡ [] }
        ensures ends { result.ends ≡ [] }
    {
        Findings {
            known: Vars {
                items: Vec::new(alloc),
            },
            ends: Polys {
                items: Vec::new(alloc),
            },
        }
    }

    /// What the chain of a condition shows.
    pub fn add(&mut self, chain: WorkedChain) -> Result<(), NoMemory>
        ensures known { OnOk result
            (self.new.known ≡ self.old.known ++ cons_option chain.variable []) }
        ensures ends { OnOk result (self.new.ends ≡ self.old.ends ++ chain.end ∷ []) }
        ensures known_stay { OnErr result (self.new.known ≡ self.old.known) }
        ensures ends_stay { OnErr result (self.new.ends ≡ self.old.ends) }
    {
        self.ends.items.reserve(1)?;
        if let Some(variable) = chain.variable {
            self.known.items.push(variable)?;
        }
        self.ends.items.push(chain.end)?;
        Ok(())
    }

    /// What the chain of a goal that fails shows.
    pub fn add_end(&mut self, end: Poly) -> Result<(), NoMemory>
        ensures known { self.new.known ≡ self.old.known }
        ensures ends { OnOk result (self.new.ends ≡ self.old.ends ++ end ∷ []) }
        ensures same { OnErr result (self.new.ends ≡ self.old.ends) }
    {
        self.ends.items.push(end)?;
        Ok(())
    }
}
