//! What no clause says: that each call succeeds with ample memory, and that the words of the
//! clauses mean what they should. What is expected was worked out by hand.

ghost use Rattle.std.specs.Prelude.{◌≡◌, ◌+◌, ◌<◌, ◌≤◌, IfOk};
ghost use Rattle.mono_store.specs.Monomials.{IsMonomial, degree_of};
ghost use Rattle.mono_store.specs.Stores.{IsStore, Keeps, count, monomial_of};

use mono_store::{Digits, MonoId, Monos, NoMemory};
use std::alloc::Global;
use std::cmp::Ordering;
use std::test::Fail;

/// The index of the monomial with these powers.
fn stored(store: &mut Monos, powers: &[(u64, u32)]) -> Result<MonoId, NoMemory>
    requires { IsMonomial powers.now }
    ensures index { IfOk result (λ id. id.0 < count store.new) }
    ensures monomial { IfOk result (λ id. monomial_of store.new id ≡ powers.now) }
    ensures kept { Keeps store.old store.new }
    ensures valid { IsStore store.new }
{
    let mut id = store.one();
    let mut i = powers.len();
    while i > 0 {
        i -= 1;
        let (var, exp) = powers[i];
        id = store.mono(var, exp, id)?;
    }
    Ok(id)
}

/// The powers of a monomial, read link by link.
fn powers_of(alloc: Global, store: &Monos, id: MonoId) -> Result<Vec<(u64, u32)>, NoMemory>
    requires { id.0 < count store.now }
{
    let mut powers = Vec::new(alloc);
    let mut at = id;
    while let Some(link) = store.link(at) {
        powers.push((link.var, link.exp))?;
        at = link.next;
    }
    Ok(powers)
}

/// What is found of two monomials in one store.
#[derive(Drop)]
struct Pair {
    /// How they compare.
    order: Ordering,
    /// Whether they have one index.
    same: bool,
    /// The powers of their product.
    product: Vec<(u64, u32)>,
    /// Whether their product in the other order has the same index.
    commutes: bool,
}

/// Puts two monomials into a store, and looks at them.
fn pair_in(
    alloc: Global,
    store: &mut Monos,
    left: &[(u64, u32)],
    right: &[(u64, u32)],
) -> Result<Pair, NoMemory>
    requires left { IsMonomial left.now }
    requires right { IsMonomial right.now }
    requires degree { degree_of left.now + degree_of right.now ≤ 65535 }
{
    let a = stored(store, left)?;
    let b = stored(store, right)?;
    let order = store.compare(a, b);
    let product = store.product(a, b)?;
    let turned = store.product(b, a)?;
    Ok(Pair {
        order,
        same: a == b,
        product: powers_of(alloc, store, product)?,
        commutes: product == turned,
    })
}

/// A store of the words within these limits, which fit.
fn store_within(alloc: Global, limits: &[u32]) -> Result<Monos, NoMemory> {
    match Digits::new(alloc, limits)? {
        Some(words) => Ok(Monos::of_words(alloc, words)),
        None => Ok(Monos::new(alloc)),
    }
}

/// Whether two monomials are in this order and have this product, in a store without words and in
/// one with words within the limits 2, 0 and 3.
fn are_so(
    alloc: Global,
    left: &[(u64, u32)],
    right: &[(u64, u32)],
    order: Ordering,
    product: &[(u64, u32)],
) -> Result<bool, NoMemory>
    requires left { IsMonomial left.now }
    requires right { IsMonomial right.now }
    requires degree { degree_of left.now + degree_of right.now ≤ 65535 }
{
    let mut linked = Monos::with_capacity(alloc, 4)?;
    let mut worded = store_within(alloc, &[2, 0, 3])?;
    let plain = pair_in(alloc, &mut linked, left, right)?;
    let packed = pair_in(alloc, &mut worded, left, right)?;
    Ok(is_so(&plain, order, product) && is_so(&packed, order, product))
}

/// Whether a pair is in this order and has this product, and equal ones have one index.
fn is_so(pair: &Pair, order: Ordering, product: &[(u64, u32)]) -> bool {
    pair.order == order
        && pair.same == (order == Ordering::Equal)
        && pair.product.as_slice() == product
        && pair.commutes
}

#[test]
fn monomials_in_one_store(rt: HostRuntime) -> Result<(), Fail> {
    let alloc = rt.alloc();
    // x0 x2^3 and x1^2 x2^4
    assert!(rt;
        are_so(
            alloc,
            &[(0, 1), (2, 3)],
            &[(1, 2), (2, 4)],
            Ordering::Greater,
            &[(0, 1), (1, 2), (2, 7)],
        )?
    );
    // x0 x1 and x0^2
    assert!(rt;
        are_so(
            alloc,
            &[(0, 1), (1, 1)],
            &[(0, 2)],
            Ordering::Less,
            &[(0, 3), (1, 1)]
        )?
    );
    // x5 and 1
    assert!(rt; are_so(alloc, &[(5, 1)], &[], Ordering::Greater, &[(5, 1)])?);
    // x1^2 x3, twice
    assert!(rt;
        are_so(
            alloc,
            &[(1, 2), (3, 1)],
            &[(1, 2), (3, 1)],
            Ordering::Equal,
            &[(1, 4), (3, 2)],
        )?
    );
    Ok(())
}

#[test]
fn monomials_within_limits(rt: HostRuntime) -> Result<(), Fail> {
    let alloc = rt.alloc();
    // x0 x2 and x2^2
    assert!(rt;
        are_so(
            alloc,
            &[(0, 1), (2, 1)],
            &[(2, 2)],
            Ordering::Greater,
            &[(0, 1), (2, 3)]
        )?
    );
    // x0^2 x2^3, twice
    assert!(rt;
        are_so(
            alloc,
            &[(0, 2), (2, 3)],
            &[(0, 2), (2, 3)],
            Ordering::Equal,
            &[(0, 4), (2, 6)],
        )?
    );
    // x2^3 and x2^4
    assert!(rt; are_so(alloc, &[(2, 3)], &[(2, 4)], Ordering::Less, &[(2, 7)])?);
    Ok(())
}

/// The indices of x0 x2^3, which is a word, and of x0 x1 x2^3 and x2^4, which are none, with how
/// many words and links there are then.
fn indices(alloc: Global) -> Result<[u64; 5], NoMemory> {
    let mut store = store_within(alloc, &[2, 0, 3])?;
    let word = stored(&mut store, &[(0, 1), (2, 3)])?;
    let link = stored(&mut store, &[(0, 1), (1, 1), (2, 3)])?;
    let other = stored(&mut store, &[(2, 4)])?;
    Ok([word.0, link.0, other.0, store.words(), store.links()])
}

#[test]
fn words_come_before_links(rt: HostRuntime) -> Result<(), Fail> {
    let alloc = rt.alloc();
    assert_eq!(rt; indices(alloc)?.as_slice(), [7, 13, 14, 12, 3].as_slice());
    Ok(())
}

/// Whether there are digits of these limits.
fn has_digits(alloc: Global, limits: &[u32]) -> Result<bool, NoMemory> {
    Ok(Digits::new(alloc, limits)?.is_some())
}

#[test]
fn words_are_few(rt: HostRuntime) -> Result<(), Fail> {
    let alloc = rt.alloc();
    assert!(rt; has_digits(alloc, &[65535])?);
    assert!(rt; !has_digits(alloc, &[65535, 1])?);
    assert!(rt; has_digits(alloc, &[32767, 4095, 4095, 4095, 4095])?);
    assert!(rt; !has_digits(alloc, &[32767, 4095, 4095, 4095, 4095, 1])?);
    assert!(rt; !has_digits(alloc, &[8191, 8191, 8191, 8191, 8191])?);
    Ok(())
}
