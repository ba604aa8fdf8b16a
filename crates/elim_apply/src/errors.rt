//! Why a line of a chain is not made.

use geo_base::Spent;
use geo_points::NoMemory;
use geo_poly::Which;

/// Why a move or a start has no result.
#[derive(Clone, Copy, Debug, PartialEq, Eq)]
pub enum ApplyError {
    /// The move replaces no variable of the polynomial.
    NoRow,
    /// The charge of the line is past what is left of the budget.
    Spent,
    /// The weight of the line passes its limit, or else its degree does.
    TooLarge(Which),
    /// There was not enough memory.
    NoMemory,
}

impl From<NoMemory> for ApplyError {
    ghost use Rattle.std.specs.Prelude.{◌≡◌};
    ghost use Rattle.elim_apply.specs.declared.errors.ApplyError.TheVariants.{NoMemory as NoRoom};

    ghost from_gives = { λ _ e. e ≡ NoRoom };

    fn from(_error: NoMemory) -> ApplyError {
        ApplyError::NoMemory
    }
}

impl From<Spent> for ApplyError {
    ghost use Rattle.std.specs.Prelude.{◌≡◌};
    ghost use Rattle.elim_apply.specs.declared.errors.ApplyError.TheVariants.{Spent as OutOfBudget};

    ghost from_gives = { λ _ e. e ≡ OutOfBudget };

    fn from(_error: Spent) -> ApplyError {
        ApplyError::Spent
    }
}
