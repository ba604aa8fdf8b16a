//! What the lines of a log leave for those after them.

ghost use Rattle.std.specs.Option.{option_to_list};
ghost use Rattle.std.specs.Prelude.{◌≡◌, [], ◌∷◌, ◌++◌, OnOk};

use geo_base::Budget;
use geo_points::NoMemory;
use geo_poly::lists::{Polys, Vars};
use geo_poly::{Poly, Var};
use std::alloc::Global;

/// What the chains so far leave for the lines after them.
#[derive(Drop)]
pub(crate) struct Evidence {
    /// The variables that conditions make known.
    pub known: Vars,
    /// The ends of chains that are not zero.
    pub ends: Polys,
    /// The steps that are left.
    pub budget: Budget,
}

impl Evidence {
    /// What is there before the first chain.
    pub fn new(alloc: Global, steps: u64) -> Evidence
        ensures known { result.known ≡ [] }
        ensures ends { result.ends ≡ [] }
        ensures left { result.budget.left ≡ steps }
    {
        Evidence {
            known: Vars {
                items: Vec::new(alloc),
            },
            ends: Polys {
                items: Vec::new(alloc),
            },
            budget: Budget { left: steps },
        }
    }

    /// Adds the end of a chain, and the variable that the chain makes known, if any.
    pub fn add(&mut self, own: Option<Var>, end: Poly) -> Result<(), NoMemory>
        ensures known { OnOk result (self.new.known ≡ self.old.known ++ option_to_list own) }
        ensures ends { OnOk result (self.new.ends ≡ self.old.ends ++ end ∷ []) }
        ensures left { self.new.budget ≡ self.old.budget }
    {
        add_known(&mut self.known, own)?;
        add_end(&mut self.ends, end)
    }
}

/// Adds the variable, if any.
fn add_known(known: &mut Vars, own: Option<Var>) -> Result<(), NoMemory>
    ensures { OnOk result (known.new ≡ known.old ++ option_to_list own) }
{
    if let Some(v) = own {
        known.items.push(v)?;
    }
    Ok(())
}

/// Adds the polynomial.
fn add_end(ends: &mut Polys, end: Poly) -> Result<(), NoMemory>
    ensures { OnOk result (ends.new ≡ ends.old ++ end ∷ []) }
{
    ends.items.push(end)?;
    Ok(())
}
