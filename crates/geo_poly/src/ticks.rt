//! A counter of products of monomials.

ghost use Rattle.std.specs.Prelude.{◌≡◌, ◌+◌, ◌<◌};

use std::marker::Model;
use std::sync::ledger::{Blank, Book, Ledger, Share};

/// How many products of one monomial, with its coefficient, and another were formed. The counter
/// takes no bytes and no time, and only `tick` and `tick_each` change it: it lets a contract bound
/// the work.
#[derive(Drop)]
pub struct Ticks<L: Ledger> {
    book: Book<L>,
    share: Share<L>,
}

impl<L: Ledger> Model for Ticks<L> {
    ghost use Rattle.std.specs.Prelude.{ℕ, ◌<◌};

    ghost Value = { ℕ };

    ghost view = { λ ticks. ticks.book.total };

    ghost invariant = { λ ticks. 0 < ticks.share.parts };
}

impl<L: Ledger> Ticks<L> {
    /// A counter at 0, in the ledger that the blank begins. A caller that wants no count calls a
    /// function over any ledger with `Brand` for it and `Blank::new(1)`.
    pub fn new(blank: Blank) -> Ticks<L>
        requires name { blank.name ≡ L.name }
        requires parts { blank.parts ≡ L.parts }
        requires some { 0 < blank.parts }
        ensures { result ≡ 0 }
    {
        let (book, share) = blank.open();
        Ticks { book, share }
    }

    /// Counts one more product.
    pub fn tick(&mut self)
        ensures { self.new ≡ self.old + 1 }
    {
        self.book.add(&mut self.share, 1);
    }

    /// Counts so many more products.
    pub fn tick_each(&mut self, count: u64)
        ensures { self.new ≡ self.old + count }
    {
        self.book.add(&mut self.share, count);
    }
}
