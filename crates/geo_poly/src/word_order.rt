//! The order of words.

use poly_arena::KeyOrder;
use std::cmp::Ordering;

/// Words in the order of their monomials, as the keys of chains.
pub(crate) struct ByWord;

impl KeyOrder for ByWord {
    ghost use Rattle.std.specs.Prelude.{◌^◌};
    ghost use Rattle.std.specs.Ordering.{nat_cmp};
    ghost use Rattle.geo_poly.specs.Inner.Words.{word_order};

    ghost keys = { λ _. 2 ^ 64 };

    ghost cmp = { λ _. nat_cmp };

    fn cmp_keys(&self, a: u64, b: u64) -> Ordering {
        a.cmp(&b)
    }

    ghost laws = { λ _. word_order };
}
