//! Words as keys of chains.

use crate::monomial_keys::MonomialKeys;
use crate::word_order::ByWord;
use geo_points::NoMemory;
use mono_store::Digits;
use poly_arena::{Arena, Chain};

impl MonomialKeys for Digits {
    ghost use Rattle.mono_store.proofs.WordDigits.{powers_of_word-zero};
    ghost use Rattle.geo_poly.specs.Inner.Words.{word_keys};

    ghost keys = { word_keys };

    fn one(&self) -> u64 {
        0
    }

    fn fits(&self, var: u64, exp: u32) -> bool {
        self.has_room(var, exp)
    }

    fn power_before(&mut self, var: u64, exp: u32, next: u64) -> Result<u64, NoMemory> {
        Ok(next + self.power(var, exp))
    }

    fn amount(&self, var: u64, exp: u32) -> Option<u64> {
        if self.count() as u64 <= var || !self.has_room(var, exp) {
            return None;
        }
        Some(self.power(var, exp))
    }

    fn times(&mut self, a: u64, b: u64) -> Result<u64, NoMemory> {
        let _count = self.count();
        Ok(a + b)
    }

    fn adds_up(&self) -> bool {
        let _count = self.count();
        true
    }

    fn comes_before(&self, a: u64, b: u64) -> bool {
        a > b
    }

    fn merge(&self, arena: &mut Arena, kept: &mut Chain, spent: Chain) {
        let _count = self.count();
        arena.merge_into(&ByWord, kept, spent);
    }

    ghost first = { powers_of_word-zero };
}
