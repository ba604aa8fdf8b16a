//! A number of charges that a run may spend.
ghost use Rattle.std.specs.Prelude.{◌≡◌, ◌+◌, ◌<◌, ◌↔◌, IsErr, OnOk, OnErr};

/// A charge is greater than what is left of the budget.
#[derive(Clone, Copy, Debug, PartialEq, Eq)]
pub struct Spent;

/// What may still be spent.
#[derive(Clone, Copy, Debug, PartialEq, Eq)]
pub struct Budget {
    /// How many charges are left.
    pub left: u64,
}

impl Budget {
    /// Takes `n` charges from what is left, all or none.
    pub fn spend(&mut self, n: u128) -> Result<(), Spent>
        ensures spent { OnOk result (self.new.left + n ≡ self.old.left) }
        ensures short { IsErr result ↔ (self.old.left < n) }
        ensures kept { OnErr result (self.new ≡ self.old) }
    {
        if n <= self.left as u128 {
            self.left -= n as u64;
            Ok(())
        } else {
            Err(Spent)
        }
    }
}
