//! The monomials of a polynomial under other keys, whose variables have other numbers, without the
//! variables that are replaced.

ghost use Rattle.std.specs.Prelude.{◌≡◌, ℕ, ◌+◌, ◌<◌, ◌∷◌, [], Contains, None, IfOk, IfSome, Some};
ghost use Rattle.std.specs.Prelude.{List, slice_index_or};
ghost use Rattle.std.specs.List.Sorted.{IsStrictlySortedBy};
ghost use Rattle.geo_poly.specs.declared.moving.Move.TheVariants.{Unknown};
ghost use Rattle.geo_poly.specs.declared.rows.Row.{Row};
ghost use Rattle.geo_poly.specs.declared.variables.Var.{Var};
ghost use Rattle.geo_poly.specs.Keys.{Keys};
ghost use Rattle.sparse_lists.specs.SparseLists.{AllKeys};
ghost use Rattle.mono_store.specs.Stores.{Keeps, count, monomial_of};
ghost use Rattle.geo_poly.specs.Monomials.{IsMonomial};
ghost use Rattle.geo_poly.specs.PolynomialVariables.{AllVariables};
ghost use Rattle.geo_poly.specs.Replace.{others};
ghost use Rattle.geo_poly.specs.Shared.{AreParts, IsIndex, IsIndexOf};
ghost use Rattle.geo_poly.specs.Shared.{named, terms_of, told, told_powers};
ghost use Rattle.geo_poly.specs.Variables.{var_cmp};
ghost use Rattle.geo_poly.specs.Inner.Keyed.{HasRoom, IsIndexUnder, IsWithinLimits, KeepsKeys};
ghost use Rattle.geo_poly.specs.Inner.Keyed.{terms_under};
ghost use Rattle.geo_poly.specs.Inner.Moved.{AreMoved, AreMovedLinks, AreMoves, ArePlaces, IsMoveOf, IsMovedTo};
ghost use Rattle.geo_poly.specs.Inner.Moved.{IsMovedKey, IsPlaceOf, IsSame};

use crate::interning::place_near;
use crate::monomial_keys::MonomialKeys;
use crate::polynomial_variables::mark;
use crate::reading::monomial_at;
use crate::row_table::RowTable;
use crate::shared::{Indexed, Shared};
use crate::variable_places::{find_place, guessed_place};
use crate::variables::Var;
use geo_points::NoMemory;
use mono_store::{Link, MonoId, Monos};
use std::alloc::Global;
use std::cmp::Ordering;

/// So few monomials are walked, and no table of their links is made, where the links are few too.
const FEW_TERMS: usize = 8;

/// Among so few links no walk goes deep.
const FEW_LINKS: u64 = 64;

/// What becomes of a variable.
#[derive(Clone, Copy)]
pub(crate) enum Move {
    /// It has a row.
    Replaced,
    /// It has none, and this place.
    Kept(u64),
    /// It has neither.
    Unknown,
}

/// The keys of what is left of the monomials of a polynomial. Words have none here: they are moved
/// power by power.
pub(crate) struct MovedMonomials {
    /// What becomes of the variable of each number.
    moves: Vec<Move>,
    /// The key of what is left of the monomial of each link, where it has one.
    links: Vec<Option<MonoId>>,
}

impl MovedMonomials {
    /// Those of no variable.
    pub(crate) fn none(alloc: Global) -> MovedMonomials
        ensures { (p : Shared) (rows : List Row) (vars : List Var) (keys : Keys)
            → AreParts p → AreMoved p rows vars keys result }
    {
        MovedMonomials {
            moves: Vec::new(alloc),
            links: Vec::new(alloc),
        }
    }

    /// What becomes of the variable of each number.
    pub(crate) fn moves(&self) -> &[Move] {
        self.moves.as_slice()
    }
}

/// By hand, so that a caller's proof sees one call where it is let go.
impl Drop for MovedMonomials {
    fn drop(self) {
        let MovedMonomials { moves: _, links: _ } = self;
    }
}

/// The indices of the monomials in another store, with their coefficients.
#[tactic(auto, using(crate::proofs::KeysKept::keeps_store))]
pub(crate) fn moved(
    alloc: Global,
    store: &mut Monos,
    vars: &[Var],
    p: &Shared,
) -> Result<Vec<Indexed>, NoMemory>
    requires rising { IsStrictlySortedBy var_cmp vars.now }
    requires parts { AreParts p.now }
    requires known { AllVariables (Contains vars.now) (told p.now) }
    ensures indices { IfOk result (λ list. AllKeys (IsIndex vars.now store.new) list.items) }
    ensures terms { IfOk result (λ list. terms_of vars.now store.new list.items ≡ told p.now) }
    ensures kept { Keeps store.old store.new }
{
    keyed(alloc, store, vars, p)
}

/// The keys of the monomials, with their coefficients. No link is moved that they do not reach, and
/// each is looked at once but where they are few.
pub(crate) fn keyed<K: MonomialKeys>(
    alloc: Global,
    keys: &mut K,
    vars: &[Var],
    p: &Shared,
) -> Result<Vec<Indexed>, NoMemory>
    requires rising { IsStrictlySortedBy var_cmp vars.now }
    requires parts { AreParts p.now }
    requires known { AllVariables (Contains vars.now) (told p.now) }
    requires reach { IsWithinLimits vars.now (K.keys keys.old) (told p.now) }
    ensures indices { IfOk result
        (λ list. AllKeys (IsIndexUnder vars.now (K.keys keys.new)) list.items) }
    ensures terms { IfOk result
        (λ list. terms_under vars.now (K.keys keys.new) list.items ≡ told p.now) }
    ensures kept { KeepsKeys (K.keys keys.old) (K.keys keys.new) }
{
    let (list, _table) = keyed_near(alloc, keys, vars, p, &[])?;
    Ok(list)
}

/// The keys of the monomials, with their coefficients, and what became of the variables, which are
/// looked for first where those of an earlier list are.
pub(crate) fn keyed_near<K: MonomialKeys>(
    alloc: Global,
    keys: &mut K,
    vars: &[Var],
    p: &Shared,
    earlier: &[Move],
) -> Result<(Vec<Indexed>, MovedMonomials), NoMemory>
    requires rising { IsStrictlySortedBy var_cmp vars.now }
    requires parts { AreParts p.now }
    requires known { AllVariables (Contains vars.now) (told p.now) }
    requires reach { IsWithinLimits vars.now (K.keys keys.old) (told p.now) }
    ensures indices { IfOk result
        (λ found. AllKeys (IsIndexUnder vars.now (K.keys keys.new)) found.0.items) }
    ensures terms { IfOk result
        (λ found. terms_under vars.now (K.keys keys.new) found.0.items ≡ told p.now) }
    ensures kept { KeepsKeys (K.keys keys.old) (K.keys keys.new) }
{
    let rows = RowTable::new(alloc, &[], &[]);
    let table = moved_monomials(alloc, keys, vars, &rows, p, earlier)?;
    let list = looked_up(alloc, keys, vars, &rows, p, &table)?;
    Ok((list, table))
}

/// Which links the monomials of the list reach, by their numbers. Nothing rests on it but time.
fn reached_links(alloc: Global, p: &Shared) -> Result<Vec<bool>, NoMemory>
    requires { AreParts p.now }
{
    let mut reached = Vec::new(alloc);
    reached.resize(p.monos.links() as usize, false)?;
    let words = p.monos.words();
    for (id, _) in p.list {
        if words <= id.0 {
            reach(&mut reached, p, *id);
        }
    }
    Ok(reached)
}

/// Marks the links of a monomial, up to a part that is marked.
fn reach(reached: &mut Vec<bool>, p: &Shared, id: MonoId)
    requires { id.0 < count p.now.monos.now }
{
    let words = p.monos.words();
    let mut rest = id;
    while let Some(link) = p.monos.link(rest) {
        if rest.0 < words || mark(reached, (rest.0 - words) as usize) {
            return;
        }
        rest = link.next;
    }
}

/// The list with the keys.
fn looked_up<K: MonomialKeys>(
    alloc: Global,
    keys: &mut K,
    vars: &[Var],
    rows: &RowTable,
    p: &Shared,
    table: &MovedMonomials,
) -> Result<Vec<Indexed>, NoMemory>
    requires rising { IsStrictlySortedBy var_cmp vars.now }
    requires no_rows { rows.now ≡ [] }
    requires parts { AreParts p.now }
    requires known { AllVariables (Contains vars.now) (told p.now) }
    requires table { AreMoved p.now rows.now vars.now (K.keys keys.old) table.now }
    requires reach { IsWithinLimits vars.now (K.keys keys.old) (told p.now) }
    ensures indices { IfOk result
        (λ list. AllKeys (IsIndexUnder vars.now (K.keys keys.new)) list.items) }
    ensures terms { IfOk result
        (λ list. terms_under vars.now (K.keys keys.new) list.items ≡ told p.now) }
    ensures kept { KeepsKeys (K.keys keys.old) (K.keys keys.new) }
{
    let mut list = Vec::with_capacity(alloc, p.list.len())?;
    for (id, coefficient) in p.list {
        let new = index_in(alloc, keys, vars, rows, p, table, *id)?;
        list.push((new, *coefficient))?;
    }
    Ok(list)
}

/// The key of what is left of a monomial, which is read where neither its digits nor the table tell
/// it.
pub(crate) fn index_in<K: MonomialKeys>(
    alloc: Global,
    keys: &mut K,
    vars: &[Var],
    rows: &RowTable,
    p: &Shared,
    table: &MovedMonomials,
    id: MonoId,
) -> Result<MonoId, NoMemory>
    requires rising { IsStrictlySortedBy var_cmp vars.now }
    requires index { IsIndexOf p.now id }
    requires monomial { IsMonomial (told_powers p.now id) }
    requires known { AllKeys (Contains vars.now) (told_powers p.now id) }
    requires table { AreMoved p.now rows.now vars.now (K.keys keys.old) table.now }
    requires reach { HasRoom vars.now (K.keys keys.old)
        (others rows.now (told_powers p.now id)) }
    ensures index { IfOk result (IsIndexUnder vars.now (K.keys keys.new)) }
    ensures powers { IfOk result (λ new. named vars.now ((K.keys keys.new).powers new.0)
        ≡ others rows.now (told_powers p.now id)) }
    ensures kept { KeepsKeys (K.keys keys.old) (K.keys keys.new) }
{
    if id.0 < p.monos.words() || table.links.is_empty() {
        if let Some(key) = added_up(keys, vars, rows, p, &table.moves, id) {
            return Ok(MonoId(key));
        }
    }
    read_index(alloc, keys, vars, rows, p, table, id)
}

/// The same where the amounts of the powers of a word are not added up.
fn read_index<K: MonomialKeys>(
    alloc: Global,
    keys: &mut K,
    vars: &[Var],
    rows: &RowTable,
    p: &Shared,
    table: &MovedMonomials,
    id: MonoId,
) -> Result<MonoId, NoMemory>
    requires rising { IsStrictlySortedBy var_cmp vars.now }
    requires index { IsIndexOf p.now id }
    requires monomial { IsMonomial (told_powers p.now id) }
    requires known { AllKeys (Contains vars.now) (told_powers p.now id) }
    requires table { AreMoved p.now rows.now vars.now (K.keys keys.old) table.now }
    requires reach { HasRoom vars.now (K.keys keys.old)
        (others rows.now (told_powers p.now id)) }
    ensures index { IfOk result (IsIndexUnder vars.now (K.keys keys.new)) }
    ensures powers { IfOk result (λ new. named vars.now ((K.keys keys.new).powers new.0)
        ≡ others rows.now (told_powers p.now id)) }
    ensures kept { KeepsKeys (K.keys keys.old) (K.keys keys.new) }
{
    let found = new_index(keys, vars, rows, p, &table.moves, &table.links, id)?;
    if let Some(new) = found {
        return Ok(new);
    }
    let monomial = monomial_at(alloc, p, id)?;
    stored_others(keys, vars, rows, monomial.powers())
}

/// The key of the monomial of the variables with no row.
fn stored_others<K: MonomialKeys>(
    keys: &mut K,
    vars: &[Var],
    rows: &RowTable,
    powers: &[(Var, u32)],
) -> Result<MonoId, NoMemory>
    requires rising { IsStrictlySortedBy var_cmp vars.now }
    requires monomial { IsMonomial powers.now }
    requires known { AllKeys (Contains vars.now) powers.now }
    requires reach { HasRoom vars.now (K.keys keys.old) (others rows.now powers.now) }
    ensures index { IfOk result (IsIndexUnder vars.now (K.keys keys.new)) }
    ensures powers { IfOk result
        (λ id. named vars.now ((K.keys keys.new).powers id.0) ≡ others rows.now powers.now) }
    ensures kept { KeepsKeys (K.keys keys.old) (K.keys keys.new) }
{
    let mut key = keys.one();
    let mut i = powers.len();
    while i > 0 {
        i -= 1;
        let (v, exponent) = powers[i];
        let guess = i as u64;
        match rows.find_row(v, guess) {
            Some(_) => {}
            None => key = keys.power_before(place_near(vars, v, guess), exponent, key)?,
        }
    }
    Ok(MonoId(key))
}

/// The keys of what is left of the monomials without the variables of the rows, where the list
/// reaches the monomial, its variables stand there and its exponents have room.
pub(crate) fn moved_monomials<K: MonomialKeys>(
    alloc: Global,
    keys: &mut K,
    vars: &[Var],
    rows: &RowTable,
    p: &Shared,
    earlier: &[Move],
) -> Result<MovedMonomials, NoMemory>
    requires rising { IsStrictlySortedBy var_cmp vars.now }
    requires parts { AreParts p.now }
    ensures moved { IfOk result
        (λ table. AreMoved p.now rows.now vars.now (K.keys keys.new) table) }
    ensures kept { KeepsKeys (K.keys keys.old) (K.keys keys.new) }
{
    let moves = moves_in(alloc, rows, p.vars, vars, earlier)?;
    let links = tabled_links(alloc, keys, vars, rows, p, &moves)?;
    Ok(MovedMonomials { moves, links })
}

/// Whether the monomials are walked, so that no table of links is made.
fn is_walked(p: &Shared) -> bool {
    let links = p.monos.links();
    links == 0 || (links <= FEW_LINKS && p.list.len() <= FEW_TERMS)
}

/// The keys of the links that the list reaches, and none where its monomials are walked instead.
fn tabled_links<K: MonomialKeys>(
    alloc: Global,
    keys: &mut K,
    vars: &[Var],
    rows: &RowTable,
    p: &Shared,
    moves: &[Move],
) -> Result<Vec<Option<MonoId>>, NoMemory>
    requires rising { IsStrictlySortedBy var_cmp vars.now }
    requires parts { AreParts p.now }
    requires moves { AreMoves p.now.vars.now rows.now vars.now moves.now }
    ensures moved { IfOk result
        (λ links. AreMovedLinks p.now rows.now vars.now (K.keys keys.new) links.items) }
    ensures kept { KeepsKeys (K.keys keys.old) (K.keys keys.new) }
{
    if is_walked(p) {
        return Ok(Vec::new(alloc));
    }
    let reached = reached_links(alloc, p)?;
    moved_links(alloc, keys, vars, rows, p, moves, &reached)
}

/// The key of what is left of the monomial of each link, in the order of the links, where it is
/// marked, its variables stand there and its exponents have room.
fn moved_links<K: MonomialKeys>(
    alloc: Global,
    keys: &mut K,
    vars: &[Var],
    rows: &RowTable,
    p: &Shared,
    moves: &[Move],
    reached: &[bool],
) -> Result<Vec<Option<MonoId>>, NoMemory>
    requires rising { IsStrictlySortedBy var_cmp vars.now }
    requires parts { AreParts p.now }
    requires moves { AreMoves p.now.vars.now rows.now vars.now moves.now }
    ensures moved { IfOk result
        (λ links. AreMovedLinks p.now rows.now vars.now (K.keys keys.new) links.items) }
    ensures kept { KeepsKeys (K.keys keys.old) (K.keys keys.new) }
{
    let words = p.monos.words();
    let mut links = Vec::with_capacity(alloc, p.monos.links() as usize)?;
    for k in 0..p.monos.links() {
        let id = MonoId(words + k);
        let new = moved_entry(
            keys,
            vars,
            rows,
            p,
            moves,
            &links,
            id,
            is_marked(reached, k),
        )?;
        links.push(new)?;
    }
    Ok(links)
}

/// Whether a number is marked.
fn is_marked(reached: &[bool], number: u64) -> bool {
    match reached.get(number as usize) {
        Some(marked) => *marked,
        None => false,
    }
}

/// The key of what is left of a monomial that is reached, where the links before it have theirs.
fn moved_entry<K: MonomialKeys>(
    keys: &mut K,
    vars: &[Var],
    rows: &RowTable,
    p: &Shared,
    moves: &[Move],
    links: &[Option<MonoId>],
    id: MonoId,
    is_reached: bool,
) -> Result<Option<MonoId>, NoMemory>
    requires rising { IsStrictlySortedBy var_cmp vars.now }
    requires parts { AreParts p.now }
    requires moves { AreMoves p.now.vars.now rows.now vars.now moves.now }
    requires links { AreMovedLinks p.now rows.now vars.now (K.keys keys.old) links.now }
    requires index { id.0 < count p.now.monos.now }
    ensures moved { IfOk result (IsMovedTo p.now rows.now vars.now (K.keys keys.new) id) }
    ensures kept { KeepsKeys (K.keys keys.old) (K.keys keys.new) }
{
    if !is_reached {
        return Ok(None);
    }
    moved_monomial(keys, vars, rows, p, moves, links, id)
}

/// The key of what is left of a monomial: that of a word by its digits, that of a link from the
/// table.
fn new_index<K: MonomialKeys>(
    keys: &mut K,
    vars: &[Var],
    rows: &RowTable,
    p: &Shared,
    moves: &[Move],
    links: &[Option<MonoId>],
    id: MonoId,
) -> Result<Option<MonoId>, NoMemory>
    requires rising { IsStrictlySortedBy var_cmp vars.now }
    requires parts { AreParts p.now }
    requires moves { AreMoves p.now.vars.now rows.now vars.now moves.now }
    requires links { AreMovedLinks p.now rows.now vars.now (K.keys keys.old) links.now }
    requires index { id.0 < count p.now.monos.now }
    ensures moved { IfOk result (IsMovedTo p.now rows.now vars.now (K.keys keys.new) id) }
    ensures kept { KeepsKeys (K.keys keys.old) (K.keys keys.new) }
{
    let words = p.monos.words();
    if id.0 < words || links.is_empty() {
        return walked(keys, vars, rows, p, moves, id);
    }
    let entry = entry_at(links, id.0 - words);
    Ok(entry)
}

/// The key of what is left of a monomial, where the amounts of its powers are added up.
fn added_up<K: MonomialKeys>(
    keys: &K,
    vars: &[Var],
    rows: &RowTable,
    p: &Shared,
    moves: &[Move],
    id: MonoId,
) -> Option<u64>
    requires rising { IsStrictlySortedBy var_cmp vars.now }
    requires parts { AreParts p.now }
    requires moves { AreMoves p.now.vars.now rows.now vars.now moves.now }
    requires index { id.0 < count p.now.monos.now }
    ensures { IfSome result (IsMovedKey p.now rows.now vars.now (K.keys keys.now) id) }
{
    let mut sum = keys.one();
    let mut rest = id;
    while let Some(link) = p.monos.link(rest) {
        let amount = moved_amount(keys, vars, rows, p, moves, rest, link)?;
        sum = sum.checked_add(amount)?;
        rest = link.next;
    }
    Some(sum)
}

/// What the first power of a monomial adds to the key of what is left of the rest.
fn moved_amount<K: MonomialKeys>(
    keys: &K,
    vars: &[Var],
    rows: &RowTable,
    p: &Shared,
    moves: &[Move],
    id: MonoId,
    first: Link,
) -> Option<u64>
    requires rising { IsStrictlySortedBy var_cmp vars.now }
    requires parts { AreParts p.now }
    requires moves { AreMoves p.now.vars.now rows.now vars.now moves.now }
    requires index { id.0 < count p.now.monos.now }
    requires monomial { monomial_of p.now.monos.now id
        ≡ (first.var, first.exp) ∷ monomial_of p.now.monos.now first.next }
    ensures { IfSome result (λ amount. (next : ℕ)
        → IsMovedKey p.now rows.now vars.now (K.keys keys.now) first.next next
        → IsMovedKey p.now rows.now vars.now (K.keys keys.now) id (next + amount)) }
{
    // every store says of itself that it is one
    let _one = p.monos.one();
    let _ = rows;
    match move_at(moves, first.var) {
        Move::Replaced => Some(0),
        Move::Kept(place) => keys.amount(place, first.exp),
        Move::Unknown => None,
    }
}

/// The key of what is left of a monomial, power by power.
fn walked<K: MonomialKeys>(
    keys: &mut K,
    vars: &[Var],
    rows: &RowTable,
    p: &Shared,
    moves: &[Move],
    id: MonoId,
) -> Result<Option<MonoId>, NoMemory>
    requires rising { IsStrictlySortedBy var_cmp vars.now }
    requires parts { AreParts p.now }
    requires moves { AreMoves p.now.vars.now rows.now vars.now moves.now }
    requires index { id.0 < count p.now.monos.now }
    ensures moved { IfOk result (IsMovedTo p.now rows.now vars.now (K.keys keys.new) id) }
    ensures kept { KeepsKeys (K.keys keys.old) (K.keys keys.new) }
{
    let link = match p.monos.link(id) {
        Some(link) => link,
        None => return Ok(Some(MonoId(keys.one()))),
    };
    let rest = walked(keys, vars, rows, p, moves, link.next)?;
    match rest {
        Some(next) => moved_power(keys, vars, rows, p, moves, id, link, next),
        None => Ok(None),
    }
}

/// The key of what is left of a monomial, where the links before it have theirs.
fn moved_monomial<K: MonomialKeys>(
    keys: &mut K,
    vars: &[Var],
    rows: &RowTable,
    p: &Shared,
    moves: &[Move],
    links: &[Option<MonoId>],
    id: MonoId,
) -> Result<Option<MonoId>, NoMemory>
    requires rising { IsStrictlySortedBy var_cmp vars.now }
    requires parts { AreParts p.now }
    requires moves { AreMoves p.now.vars.now rows.now vars.now moves.now }
    requires links { AreMovedLinks p.now rows.now vars.now (K.keys keys.old) links.now }
    requires index { id.0 < count p.now.monos.now }
    ensures moved { IfOk result (IsMovedTo p.now rows.now vars.now (K.keys keys.new) id) }
    ensures kept { KeepsKeys (K.keys keys.old) (K.keys keys.new) }
{
    let link = match p.monos.link(id) {
        Some(link) => link,
        None => return Ok(Some(MonoId(keys.one()))),
    };
    let rest = new_index(keys, vars, rows, p, moves, links, link.next)?;
    match rest {
        Some(next) => moved_power(keys, vars, rows, p, moves, id, link, next),
        None => Ok(None),
    }
}

/// The key of what is left of a monomial with this first power, by that of what is left of the rest.
fn moved_power<K: MonomialKeys>(
    keys: &mut K,
    vars: &[Var],
    rows: &RowTable,
    p: &Shared,
    moves: &[Move],
    id: MonoId,
    first: Link,
    next: MonoId,
) -> Result<Option<MonoId>, NoMemory>
    requires rising { IsStrictlySortedBy var_cmp vars.now }
    requires parts { AreParts p.now }
    requires moves { AreMoves p.now.vars.now rows.now vars.now moves.now }
    requires index { id.0 < count p.now.monos.now }
    requires monomial { monomial_of p.now.monos.now id
        ≡ (first.var, first.exp) ∷ monomial_of p.now.monos.now first.next }
    requires next { IsSame p.now rows.now vars.now (K.keys keys.old) first.next next }
    ensures moved { IfOk result (IsMovedTo p.now rows.now vars.now (K.keys keys.new) id) }
    ensures kept { KeepsKeys (K.keys keys.old) (K.keys keys.new) }
{
    // every store says of itself that it is one
    let _one = p.monos.one();
    let _ = rows;
    match move_at(moves, first.var) {
        Move::Replaced => Ok(Some(next)),
        Move::Kept(place) => {
            if !keys.fits(place, first.exp) {
                return Ok(None);
            }
            let new = keys.power_before(place, first.exp, next.0)?;
            Ok(Some(MonoId(new)))
        }
        Move::Unknown => Ok(None),
    }
}

/// What becomes of the variable of a number.
fn move_at(moves: &[Move], number: u64) -> Move
    ensures { result ≡ slice_index_or moves.now number Unknown }
{
    match moves.get(number as usize) {
        Some(found) => *found,
        None => Move::Unknown,
    }
}

/// What becomes of each of the old variables, which are looked for first where those of an earlier
/// list are.
fn moves_in(
    alloc: Global,
    rows: &RowTable,
    former: &[Var],
    vars: &[Var],
    earlier: &[Move],
) -> Result<Vec<Move>, NoMemory>
    requires { IsStrictlySortedBy var_cmp vars.now }
    ensures { IfOk result (λ moves. AreMoves former.now rows.now vars.now moves.items) }
{
    let mut moves = Vec::with_capacity(alloc, former.len())?;
    let mut number = 0u64;
    let mut guess = 0u64;
    for v in former {
        let place = guessed_place(vars, *v, earlier_place(earlier, number, guess));
        guess = after(place, guess);
        moves.push(move_of(rows, vars, *v, number, place))?;
        number = number.saturating_add(1);
    }
    Ok(moves)
}

/// What becomes of a variable that has this place. Its row is mostly that of the number.
fn move_of(rows: &RowTable, vars: &[Var], v: Var, number: u64, place: Option<u64>) -> Move
    requires { IfSome place (λ k. IsPlaceOf vars.now v (Some k)) }
    ensures { IsMoveOf rows.now vars.now v result }
{
    let _ = vars;
    if rows.find_row(v, number).is_some() {
        return Move::Replaced;
    }
    match place {
        Some(place) => Move::Kept(place),
        None => Move::Unknown,
    }
}

/// The key at the number of a link, where there is one.
fn entry_at(links: &[Option<MonoId>], number: u64) -> Option<MonoId>
    ensures { result ≡ slice_index_or links.now number None }
{
    match links.get(number as usize) {
        Some(new) => *new,
        None => None,
    }
}

/// The place that a number has, where it has one.
pub(crate) fn place_at(places: &[Option<u64>], number: u64) -> Option<u64>
    ensures { result ≡ slice_index_or places.now number None }
{
    match places.get(number as usize) {
        Some(place) => *place,
        None => None,
    }
}

/// The place of each of the old variables among the others, where it stands there.
pub(crate) fn places_in(
    alloc: Global,
    former: &[Var],
    vars: &[Var],
) -> Result<Vec<Option<u64>>, NoMemory>
    requires { IsStrictlySortedBy var_cmp vars.now }
    ensures { IfOk result (λ places. ArePlaces former.now vars.now places.items) }
{
    let mut places = Vec::with_capacity(alloc, former.len())?;
    let mut guess = 0u64;
    for v in former {
        let place = find_place(vars, *v, guess);
        guess = place.unwrap_or(guess).saturating_add(1);
        places.push(place)?;
    }
    Ok(places)
}

/// Where the variable of a number stood in an earlier list, and else where it may stand.
fn earlier_place(earlier: &[Move], number: u64, guess: u64) -> u64 {
    match move_at(earlier, number) {
        Move::Kept(place) => place,
        _ => guess,
    }
}

/// Where the next variable may stand.
fn after(place: Option<u64>, guess: u64) -> u64 {
    match place {
        Some(place) => place.saturating_add(1),
        None => guess,
    }
}
