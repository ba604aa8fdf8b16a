//! The start of a chain.

ghost use Rattle.std.specs.Prelude.{◌≡◌, ◌≢◌, ◌+◌, ◌-◌, ◌<◌, ◌≤◌, ◌⊎◌, IfOk, IsErrOf, OnOk, length};
ghost use Rattle.geo_logs.specs.Moves.{spent, too_large};
ghost use Rattle.elim_apply.specs.Inner.Sizes.{IsSizeOf};
ghost use Rattle.geo_logs.specs.Starts.{IsStarted, IsStartStopped, start_charge, start_degree};
ghost use Rattle.geo_logs.specs.Starts.{start_of, start_weight};
ghost use Rattle.fraction_poly.specs.Measures.{capped, numbers_of};
ghost use Rattle.geo_poly.specs.declared.limits.Which.{Which};
ghost use Rattle.geo_terms.specs.Stores.{tree_of};
ghost use Rattle.geo_terms.specs.Trees.{Tree};

use crate::errors::ApplyError;
use crate::limits::LineSize;
use fraction_poly::{Numbers, measure, multiply_out};
use geo_base::Budget;
use geo_points::{NoMemory, TermId};
use geo_poly::{Poly, Ticks};
use geo_terms::Steps;
use std::alloc::Global;
use std::marker::Brand;
use std::sync::ledger::{Blank, Ledger};

/// The numerator of the term at an index. The charge of the line, its weight and its degree are
/// those of both sides of the fraction; they are tested in this order, before anything is
/// multiplied out. The charge is spent as soon as it is within the budget. Each product of monomials
/// ticks.
pub fn start<L: Ledger>(
    alloc: Global,
    steps: &Steps,
    id: TermId,
    budget: &mut Budget,
    ticks: &mut Ticks<L>,
) -> Result<Poly, ApplyError>
    requires { id.0 < length steps.now.nodes }
    ensures started { IfOk result (λ q. IsStarted budget.old.left (tree_of steps.now.nodes id)
        × (q ≡ start_of (tree_of steps.now.nodes id))) }
    ensures paid { OnOk result
        (budget.new.left ≡ budget.old.left - start_charge (tree_of steps.now.nodes id)) }
    ensures row { result ≢ Err ApplyError.NoRow }
    ensures spent { IsErrOf result ApplyError.Spent
        → IsStartStopped budget.old.left (tree_of steps.now.nodes id) spent
        × (budget.new ≡ budget.old) }
    ensures too_large { (which : Which) → IsErrOf result (ApplyError.TooLarge which)
        → IsStartStopped budget.old.left (tree_of steps.now.nodes id) (too_large which)
        × (budget.new.left ≡ budget.old.left - start_charge (tree_of steps.now.nodes id)) }
    ensures memory { IsErrOf result ApplyError.NoMemory → (budget.new ≡ budget.old)
        ⊎ (budget.new.left ≡ budget.old.left - start_charge (tree_of steps.now.nodes id)) }
    ensures ticks { ticks.new ≤ ticks.old + start_charge (tree_of steps.now.nodes id) }
    ensures counted { OnOk result
        (ticks.new + budget.new.left ≤ ticks.old + budget.old.left) }
    ensures unworked { (e : ApplyError) → IsErrOf result e → e ≢ ApplyError.NoMemory
        → ticks.new ≡ ticks.old }
{
    let numbers = measure(alloc, steps.look(), id)?;
    let left = budget.left;
    pay_start(steps, id, numbers, budget)?;
    Ok(paid_numerator(alloc, steps, id, left, budget, ticks)?)
}

/// What `start` answers, for callers that want no count of the work.
pub fn start_uncounted(
    alloc: Global,
    steps: &Steps,
    id: TermId,
    budget: &mut Budget,
) -> Result<Poly, ApplyError>
    requires { id.0 < length steps.now.nodes }
    ensures started { IfOk result (λ q. IsStarted budget.old.left (tree_of steps.now.nodes id)
        × (q ≡ start_of (tree_of steps.now.nodes id))) }
    ensures paid { OnOk result
        (budget.new.left ≡ budget.old.left - start_charge (tree_of steps.now.nodes id)) }
    ensures row { result ≢ Err ApplyError.NoRow }
    ensures spent { IsErrOf result ApplyError.Spent
        → IsStartStopped budget.old.left (tree_of steps.now.nodes id) spent
        × (budget.new ≡ budget.old) }
    ensures too_large { (which : Which) → IsErrOf result (ApplyError.TooLarge which)
        → IsStartStopped budget.old.left (tree_of steps.now.nodes id) (too_large which)
        × (budget.new.left ≡ budget.old.left - start_charge (tree_of steps.now.nodes id)) }
    ensures memory { IsErrOf result ApplyError.NoMemory → (budget.new ≡ budget.old)
        ⊎ (budget.new.left ≡ budget.old.left - start_charge (tree_of steps.now.nodes id)) }
{
    start_in::<Brand>(alloc, steps, id, budget, Blank::new(1))
}

/// The same with a counter of its own.
fn start_in<L: Ledger>(
    alloc: Global,
    steps: &Steps,
    id: TermId,
    budget: &mut Budget,
    blank: Blank,
) -> Result<Poly, ApplyError>
    requires name { blank.name ≡ L.name }
    requires parts { blank.parts ≡ L.parts }
    requires some { 0 < blank.parts }
    requires stored { id.0 < length steps.now.nodes }
    ensures started { IfOk result (λ q. IsStarted budget.old.left (tree_of steps.now.nodes id)
        × (q ≡ start_of (tree_of steps.now.nodes id))) }
    ensures paid { OnOk result
        (budget.new.left ≡ budget.old.left - start_charge (tree_of steps.now.nodes id)) }
    ensures row { result ≢ Err ApplyError.NoRow }
    ensures spent { IsErrOf result ApplyError.Spent
        → IsStartStopped budget.old.left (tree_of steps.now.nodes id) spent
        × (budget.new ≡ budget.old) }
    ensures too_large { (which : Which) → IsErrOf result (ApplyError.TooLarge which)
        → IsStartStopped budget.old.left (tree_of steps.now.nodes id) (too_large which)
        × (budget.new.left ≡ budget.old.left - start_charge (tree_of steps.now.nodes id)) }
    ensures memory { IsErrOf result ApplyError.NoMemory → (budget.new ≡ budget.old)
        ⊎ (budget.new.left ≡ budget.old.left - start_charge (tree_of steps.now.nodes id)) }
{
    let mut ticks = Ticks::<L>::new(blank);
    start(alloc, steps, id, budget, &mut ticks)
}

/// Takes the charge of the start from the budget, and then tests its weight and its degree.
fn pay_start(
    steps: &Steps,
    id: TermId,
    numbers: Numbers,
    budget: &mut Budget,
) -> Result<(), ApplyError>
    requires { numbers ≡ capped (numbers_of (tree_of steps.now.nodes id)) }
    ensures started { OnOk result (IsStarted budget.old.left (tree_of steps.now.nodes id)) }
    ensures paid { OnOk result
        (budget.new.left ≡ budget.old.left - start_charge (tree_of steps.now.nodes id)) }
    ensures row { result ≢ Err ApplyError.NoRow }
    ensures spent { IsErrOf result ApplyError.Spent
        → IsStartStopped budget.old.left (tree_of steps.now.nodes id) spent
        × (budget.new ≡ budget.old) }
    ensures too_large { (which : Which) → IsErrOf result (ApplyError.TooLarge which)
        → IsStartStopped budget.old.left (tree_of steps.now.nodes id) (too_large which)
        × (budget.new.left ≡ budget.old.left - start_charge (tree_of steps.now.nodes id)) }
    ensures memory { result ≢ Err ApplyError.NoMemory }
{
    size_of_start(numbers).spend(budget)
}

/// The numerator of the term, whose charge has been taken from what was left before.
fn paid_numerator<L: Ledger>(
    alloc: Global,
    steps: &Steps,
    id: TermId,
    left: u64,
    budget: &Budget,
    ticks: &mut Ticks<L>,
) -> Result<Poly, NoMemory>
    requires stored { id.0 < length steps.now.nodes }
    requires started { IsStarted left (tree_of steps.now.nodes id) }
    requires paid { budget.now.left ≡ left - start_charge (tree_of steps.now.nodes id) }
    ensures numerator { IfOk result (λ q. q ≡ start_of (tree_of steps.now.nodes id)) }
    ensures ticks { ticks.new ≤ ticks.old + start_charge (tree_of steps.now.nodes id) }
{
    let (numerator, _) = multiply_out(alloc, steps.look(), id, ticks)?;
    Ok(numerator)
}

/// The size of a start line, by the numbers of its term.
fn size_of_start(numbers: Numbers) -> LineSize
    ensures { (e : Tree) → numbers ≡ capped (numbers_of e)
        → IsSizeOf result (start_charge e) (start_weight e) (start_degree e) }
{
    LineSize {
        charge: numbers.charge,
        weight: numbers.wn.max(numbers.wd),
        degree: numbers.gn.max(numbers.gd),
        top: 0,
    }
}
