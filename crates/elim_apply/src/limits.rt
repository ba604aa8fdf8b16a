//! The limits of a line.

ghost use Rattle.std.specs.Prelude.{◌≡◌, ◌≢◌, ◌-◌, ℕ, OnOk};
ghost use Rattle.geo_logs.specs.Moves.{IsLineStopped, spent, too_large};
ghost use Rattle.elim_apply.specs.Inner.Sizes.{IsLineWithin, IsSizeOf};
ghost use Rattle.geo_poly.specs.declared.limits.Which.{Which};

use crate::errors::ApplyError;
use geo_base::Budget;
use geo_poly::{MAX, MAX_DEGREE, Which};

/// What a line comes to, told before anything is multiplied out. A number past `2^128 - 1` is given
/// as `2^128 - 1`.
#[derive(Clone, Copy)]
pub(crate) struct LineSize {
    /// The charge.
    pub charge: u128,
    /// The weight, which bounds the norm of the result.
    pub weight: u128,
    /// The degree, which bounds that of the result.
    pub degree: u128,
    /// How many denominators each term gets; none in a start.
    pub top: u32,
}

impl LineSize {
    /// Takes the charge from the budget, and then tests the weight and the degree.
    pub(crate) fn spend(self, budget: &mut Budget) -> Result<(), ApplyError>
        ensures ok { OnOk result ((charge weight degree : ℕ) → IsSizeOf self charge weight degree
            → IsLineWithin budget.old.left charge weight degree
            × (budget.new.left ≡ budget.old.left - charge)) }
        ensures spent { result ≡ Err ApplyError.Spent → (budget.new ≡ budget.old)
            × ((charge weight degree : ℕ) → IsSizeOf self charge weight degree
            → IsLineStopped budget.old.left charge weight degree spent) }
        ensures too_large { (which : Which) → result ≡ Err (ApplyError.TooLarge which)
            → (charge weight degree : ℕ) → IsSizeOf self charge weight degree
            → IsLineStopped budget.old.left charge weight degree (too_large which)
            × (budget.new.left ≡ budget.old.left - charge) }
        ensures memory { result ≢ Err ApplyError.NoMemory }
        ensures row { result ≢ Err ApplyError.NoRow }
    {
        // From here on it is known that the budget is below the greatest number.
        let _left = budget.left;
        budget.spend(self.charge)?;
        if self.weight > MAX as u128 {
            return Err(ApplyError::TooLarge(Which::Norm));
        }
        if self.degree > MAX_DEGREE as u128 {
            return Err(ApplyError::TooLarge(Which::Degree));
        }
        Ok(())
    }
}
