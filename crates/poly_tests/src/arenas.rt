//! What no clause says: that each call succeeds with ample memory. What is expected was worked out
//! by hand.

ghost use Rattle.std.specs.Prelude.{◌≡◌, ◌+◌, ◌^◌, ◌≤◌, IfOk, OnErr, Some, None, length};
ghost use Rattle.poly_arena.specs.Chains.{Updates, list_of};

use poly_arena::{Arena, Chain, KeyOrder, NoMemory};
use std::alloc::Global;
use std::cmp::Ordering;
use std::test::Fail;

/// Numbers in their order.
struct ByNumber;

impl KeyOrder for ByNumber {
    ghost use Rattle.std.specs.Ordering.{nat_cmp};
    ghost use Rattle.sparse_lists.proofs.NaturalAmounts.{natural_order};

    ghost keys = { λ _. 2 ^ 64 };

    ghost cmp = { λ _. nat_cmp };

    fn cmp_keys(&self, a: u64, b: u64) -> Ordering {
        a.cmp(&b)
    }

    ghost laws = { λ _. record {
      self = λ a _. natural_order.self a;
      exact = λ a b _ _ e. natural_order.exact a b e;
      flip = λ a b _ _ e. natural_order.flip a b e;
      flip_back = λ a b _ _ e. natural_order.flip_back a b e;
      trans = λ a b c _ _ _ e f. natural_order.trans a b c e f;
    } };
}

/// A chain of these pairs.
fn chain_of(arena: &mut Arena, pairs: &[(u64, i128)]) -> Result<Chain, NoMemory>
    requires { length pairs.now ≤ arena.old.spare }
    ensures new { IfOk result (λ c. list_of arena.old c ≡ None) }
    ensures updates { IfOk result (λ c. Updates arena.old arena.new c (Some pairs.now)) }
    ensures spare { IfOk result (λ c. arena.new.spare + length pairs.now ≡ arena.old.spare) }
    ensures err { OnErr result (arena.new ≡ arena.old) }
{
    let mut chain = arena.chain()?;
    let mut i = pairs.len();
    while i > 0 {
        i -= 1;
        let (key, coef) = pairs[i];
        arena.push_front(&mut chain, key, coef);
    }
    Ok(chain)
}

/// Two chains of three pairs in an arena of six nodes, merged: the list then, and that with three
/// more pairs, for which the merge left nodes.
fn merged(alloc: Global) -> Result<(Vec<(u64, i128)>, Vec<(u64, i128)>), NoMemory> {
    let mut arena = Arena::new(alloc)?;
    arena.reserve(6)?;
    let mut left = chain_of(&mut arena, &[(9, 2), (5, 1), (3, 4)])?;
    let right = match chain_of(&mut arena, &[(9, -2), (4, 7), (3, 1)]) {
        Ok(chain) => chain,
        Err(error) => {
            arena.give_back(left);
            return Err(error);
        }
    };
    arena.merge_into(&ByNumber, &mut left, right);
    let sum = arena.to_list(alloc, &left);
    arena.push_front(&mut left, 12, 1);
    arena.push_front(&mut left, 11, 1);
    arena.push_front(&mut left, 10, 1);
    let longer = arena.into_list(alloc, left);
    Ok((sum?, longer?))
}

#[test]
fn freed_nodes_are_there_again(rt: HostRuntime) -> Result<(), Fail> {
    let (sum, longer) = merged(rt.alloc())?;
    assert_eq!(rt; sum.as_slice(), [(5, 1), (4, 7), (3, 5)].as_slice());
    assert_eq!(rt;
        longer.as_slice(),
        [(10, 1), (11, 1), (12, 1), (5, 1), (4, 7), (3, 5)].as_slice()
    );
    Ok(())
}
