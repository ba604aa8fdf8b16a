//! Links of monomials, and the walks over them.

ghost use Rattle.std.specs.Prelude.{◌≡◌, ◌≢◌, ◌<◌, ◌≤◌, ◌+◌, ◌-◌, ◌∷◌, [], ◌++◌};
ghost use Rattle.std.specs.Prelude.{IfOk, IfSome, IfNone, OnErr, Some, slice_get};
ghost use Rattle.mono_store.specs.Monomials.{ComesFirst, IsMonomial, degree_of};
ghost use Rattle.mono_store.specs.Monomials.{monomial_cmp, product};
ghost use Rattle.mono_store.specs.Stores.{IsStore, Keeps, count, monomial_of, store_of};
ghost use Rattle.mono_store.specs.Words.{limit, word_count};

use crate::memory::NoMemory;
use crate::words::Digits;
use indexmap::IndexSet;
use std::cmp::Ordering;

/// The index of a monomial in its store.
#[derive(Clone, Copy, Debug, PartialEq, Eq, Hash)]
pub struct MonoId(pub u64);

/// A power before the rest of a monomial.
#[derive(Clone, Copy, Debug, PartialEq, Eq, Hash)]
pub struct Link {
    /// The number of the variable.
    pub var: u64,
    /// Its exponent.
    pub exp: u32,
    /// The index of the monomial in the later variables.
    pub next: MonoId,
}

/// The first power at an index, with the index of the rest: all have one but that of the monomial
/// with no variable.
pub fn link_at(digits: &Digits, links: &[Link], id: MonoId) -> Option<Link>
    requires store { IsStore (store_of digits.now links.now) }
    requires index { id.0 < count (store_of digits.now links.now) }
    ensures none { IfNone result (id.0 ≡ 0) }
    ensures place { IfSome result (λ l. word_count digits.now ≤ id.0
        → slice_get links.now (id.0 - word_count digits.now) ≡ Some l) }
    ensures earlier { IfSome result (λ l. l.next.0 < id.0) }
    ensures monomial { IfSome result (λ l. monomial_of (store_of digits.now links.now) id
        ≡ (l.var, l.exp) ∷ monomial_of (store_of digits.now links.now) l.next) }
{
    if id.0 == 0 {
        return None;
    }
    let words = digits.words();
    if words <= id.0 {
        return Some(links[(id.0 - words) as usize]);
    }
    let first = digits.first_power(id.0);
    Some(Link {
        var: first.var,
        exp: first.exp,
        next: MonoId(first.rest),
    })
}

/// The index of the monomial that has the power before those of `next`.
pub fn interned(
    digits: &Digits,
    links: &mut IndexSet<Link>,
    var: u64,
    exp: u32,
    next: MonoId,
) -> Result<MonoId, NoMemory>
    requires store { IsStore (store_of digits.now links.old.keys) }
    requires next { next.0 < count (store_of digits.now links.old.keys) }
    requires exponent { 1 ≤ exp }
    requires first { ComesFirst var (monomial_of (store_of digits.now links.old.keys) next) }
    requires degree { exp + degree_of (monomial_of (store_of digits.now links.old.keys) next)
        ≤ 65535 }
    ensures index { IfOk result (λ id. id.0 < count (store_of digits.now links.new.keys)) }
    ensures monomial { IfOk result (λ id. monomial_of (store_of digits.now links.new.keys) id
        ≡ (var, exp) ∷ monomial_of (store_of digits.now links.old.keys) next) }
    ensures kept { Keeps (store_of digits.now links.old.keys) (store_of digits.now links.new.keys) }
    ensures valid { IsStore (store_of digits.now links.new.keys) }
    ensures err { OnErr result (links.new.keys ≡ links.old.keys) }
{
    match digits.word_before(var, exp, next.0) {
        Some(word) => Ok(MonoId(word)),
        None => linked(digits, links, Link { var, exp, next }),
    }
}

/// The index of a link that no word has.
fn linked(digits: &Digits, links: &mut IndexSet<Link>, link: Link) -> Result<MonoId, NoMemory>
    requires store { IsStore (store_of digits.now links.old.keys) }
    requires next { link.next.0 < count (store_of digits.now links.old.keys) }
    requires exponent { 1 ≤ link.exp }
    requires first { ComesFirst link.var
        (monomial_of (store_of digits.now links.old.keys) link.next) }
    requires degree { link.exp + degree_of
        (monomial_of (store_of digits.now links.old.keys) link.next) ≤ 65535 }
    requires apart { link.next.0 < word_count digits.now → limit digits.now link.var < link.exp }
    ensures index { IfOk result (λ id. id.0 < count (store_of digits.now links.new.keys)) }
    ensures monomial { IfOk result (λ id. monomial_of (store_of digits.now links.new.keys) id
        ≡ (link.var, link.exp) ∷ monomial_of (store_of digits.now links.old.keys) link.next) }
    ensures kept { Keeps (store_of digits.now links.old.keys) (store_of digits.now links.new.keys) }
    ensures valid { IsStore (store_of digits.now links.new.keys) }
    ensures err { OnErr result (links.new.keys ≡ links.old.keys) }
{
    let words = digits.words();
    let (index, _) = links.insert_full(link)?;
    prove!(links.len() < 1 << 63);
    Ok(MonoId(words + index as u64))
}

/// Puts the first powers of the product of two monomials into `powers`, and answers the index of
/// the rest. Where one of both is used up, the rest is that of the other.
pub fn first_powers(
    digits: &Digits,
    links: &[Link],
    powers: &mut Vec<(u64, u32)>,
    a: MonoId,
    b: MonoId,
) -> Result<MonoId, NoMemory>
    requires store { IsStore (store_of digits.now links.now) }
    requires none { powers.old.items ≡ [] }
    requires left { a.0 < count (store_of digits.now links.now) }
    requires right { b.0 < count (store_of digits.now links.now) }
    requires degree { degree_of (monomial_of (store_of digits.now links.now) a)
        + degree_of (monomial_of (store_of digits.now links.now) b) ≤ 65535 }
    ensures index { IfOk result (λ id. id.0 < count (store_of digits.now links.now)) }
    ensures product { IfOk result
        (λ id. powers.new.items ++ monomial_of (store_of digits.now links.now) id
        ≡ product (monomial_of (store_of digits.now links.now) a)
        (monomial_of (store_of digits.now links.now) b)) }
{
    let mut left = a;
    let mut right = b;
    loop {
        match (link_at(digits, links, left), link_at(digits, links, right)) {
            (Some(l), Some(r)) => match l.var.cmp(&r.var) {
                Ordering::Less => {
                    powers.push((l.var, l.exp))?;
                    left = l.next;
                }
                Ordering::Greater => {
                    powers.push((r.var, r.exp))?;
                    right = r.next;
                }
                Ordering::Equal => {
                    powers.push((l.var, l.exp + r.exp))?;
                    left = l.next;
                    right = r.next;
                }
            },
            (_, None) => return Ok(left),
            (None, _) => return Ok(right),
        }
    }
}

/// The index of the monomial that has these powers before those of `rest`.
pub fn before(
    digits: &Digits,
    links: &mut IndexSet<Link>,
    powers: &[(u64, u32)],
    rest: MonoId,
) -> Result<MonoId, NoMemory>
    requires store { IsStore (store_of digits.now links.old.keys) }
    requires rest { rest.0 < count (store_of digits.now links.old.keys) }
    requires monomial { IsMonomial
        (powers.now ++ monomial_of (store_of digits.now links.old.keys) rest) }
    ensures index { IfOk result (λ id. id.0 < count (store_of digits.now links.new.keys)) }
    ensures monomial { IfOk result (λ id. monomial_of (store_of digits.now links.new.keys) id
        ≡ powers.now ++ monomial_of (store_of digits.now links.old.keys) rest) }
    ensures kept { Keeps (store_of digits.now links.old.keys) (store_of digits.now links.new.keys) }
    ensures valid { IsStore (store_of digits.now links.new.keys) }
{
    let mut id = rest;
    let mut i = powers.len();
    while i > 0 {
        i -= 1;
        let (var, exp) = powers[i];
        id = interned(digits, links, var, exp, id)?;
    }
    Ok(id)
}

/// `Greater` where the first is the earlier monomial.
pub fn order_of(digits: &Digits, links: &[Link], a: MonoId, b: MonoId) -> Ordering
    requires store { IsStore (store_of digits.now links.now) }
    requires left { a.0 < count (store_of digits.now links.now) }
    requires right { b.0 < count (store_of digits.now links.now) }
    ensures { result ≡ monomial_cmp (monomial_of (store_of digits.now links.now) a)
        (monomial_of (store_of digits.now links.now) b) }
{
    let words = digits.words();
    let mut left = a;
    let mut right = b;
    while left != right && (words <= left.0 || words <= right.0) {
        match (link_at(digits, links, left), link_at(digits, links, right)) {
            (Some(l), Some(r)) => {
                let order = r.var.cmp(&l.var).then(l.exp.cmp(&r.exp));
                if order != Ordering::Equal {
                    return order;
                }
                left = l.next;
                right = r.next;
            }
            (None, Some(_)) => return Ordering::Less,
            (Some(_), None) => return Ordering::Greater,
            (None, None) => return Ordering::Equal,
        }
    }
    order_of_words(digits, links, left, right)
}

/// The same for equal indices and for words, which are in the order of their monomials.
fn order_of_words(digits: &Digits, links: &[Link], a: MonoId, b: MonoId) -> Ordering
    requires left { a ≢ b → a.0 < word_count digits.now }
    requires right { a ≢ b → b.0 < word_count digits.now }
    ensures { result ≡ monomial_cmp (monomial_of (store_of digits.now links.now) a)
        (monomial_of (store_of digits.now links.now) b) }
{
    let _ = digits;
    let _ = links;
    a.0.cmp(&b.0)
}
