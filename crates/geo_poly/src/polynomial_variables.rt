//! The variables of a polynomial.

ghost use Rattle.std.specs.Prelude.{◌≡◌, ◌≢◌, ◌⊎◌, ◌↔◌, ℕ, ℤ, ◌+◌, ◌-◌, ◌%◌, ◌<◌, ◌≤◌, ◌++◌};
ghost use Rattle.std.specs.Prelude.{List, length, map, replicate, slice_get, slice_index_or};
ghost use Rattle.std.specs.Prelude.{Any, Contains, IfOk, IsTrue, OnOk, Some, false};
ghost use Rattle.std.specs.Option.{option_map};
ghost use Rattle.std.specs.List.{fold};
ghost use Rattle.std.specs.List.Sorted.{IsStrictlySortedBy};
ghost use Rattle.std.specs.BTreeSet.{insert_key};
ghost use Rattle.sparse_lists.specs.SparseLists.{AllKeys};
ghost use Rattle.mono_store.specs.declared.links.MonoId.{MonoId};
ghost use Rattle.mono_store.specs.Stores.{monomial_of};
ghost use Rattle.mono_store.specs.Words.{count_from};
ghost use Rattle.geo_poly.specs.declared.variables.Var.{Var};
ghost use Rattle.geo_poly.specs.Inner.Visits.{AreKnown, AreMarked, AreNumbersOf, AreVisited};
ghost use Rattle.geo_poly.specs.Inner.Visits.{Extends, IsMarked, marked};
ghost use Rattle.geo_poly.specs.Variables.{var_cmp};
ghost use Rattle.geo_poly.specs.PolynomialVariables.{HasVariable, variables_of};
ghost use Rattle.geo_poly.specs.Shared.{AreParts, IsIndexOf, told, told_powers};

use crate::poly::Poly;
use crate::shared::{Indexed, Shared};
use crate::terms::Term;
use crate::variable_places::find_place;
use crate::variables::{Var, Vars};
use geo_points::NoMemory;
use mono_store::{Digits, MonoId};
use std::alloc::Global;
use std::cmp::Ordering;
use std::collections::BTreeSet;

/// Lists of so many variables are short.
const FEW_VARIABLES: usize = 64;

impl Poly {
    /// The variables of the monomials, in order and each once.
    pub fn variables(&self, alloc: Global) -> Result<Vars, NoMemory>
        ensures variables { IfOk result (λ vs. vs ≡ variables_of self.now) }
        ensures in_order { IsStrictlySortedBy var_cmp (variables_of self.now) }
        ensures exact { (v : Var) → Contains (variables_of self.now) v ↔ HasVariable v self.now }
    {
        variables_at(alloc, &self.shared())
    }
}

/// The variables of the monomials: those of the list whose numbers occur.
pub(crate) fn variables_at(alloc: Global, p: &Shared) -> Result<Vars, NoMemory>
    requires { AreParts p.now }
    ensures { IfOk result (λ vs. vs ≡ variables_of (told p.now)) }
{
    if p.monos.links() == 0 {
        return variables_of_words(alloc, p);
    }
    let known = numbers_of_links(alloc, p)?;
    let items = marked_variables(alloc, p.vars, known.as_slice())?;
    Ok(Vars { items })
}

/// The variables of the monomials, where these are words: of each variable the terms are looked at up to
/// the first one that has it.
fn variables_of_words(alloc: Global, p: &Shared) -> Result<Vars, NoMemory>
    requires parts { AreParts p.now }
    requires words { length p.now.monos.now.links ≡ 0 }
    ensures { IfOk result (λ vs. vs ≡ variables_of (told p.now)) }
{
    let digits = p.monos.digits();
    let mut items = Vec::with_capacity(alloc, p.vars.len())?;
    let mut above = digits.words();
    for number in 0..p.vars.len() {
        let unit = unit_below(digits, number as u64, above);
        if has_digit(p.list, unit, above) {
            items.push(p.vars[number])?;
        }
        above = unit;
    }
    Ok(Vars { items })
}

/// What 1 counts in the digit of a variable, and where it has no room, what it counts in the digit
/// before.
pub(crate) fn unit_below(digits: &Digits, number: u64, above: u64) -> u64
    requires { above ≡ count_from digits.now number }
    ensures { result ≡ count_from digits.now (number + 1) }
{
    if digits.has_room(number, 1) {
        return digits.power(number, 1);
    }
    above
}

/// Whether a word of the list has something in the digit between these units.
fn has_digit(list: &[Indexed], unit: u64, above: u64) -> bool
    requires { 0 < above }
    ensures some { IsTrue result → Any (λ t. unit ≤ t.0.0 % above) list.now }
    ensures none { result ≡ false → (k : ℕ) (t : MonoId × ℤ) → slice_get list.now k ≡ Some t
        → t.0.0 % above < unit }
{
    if above <= unit {
        return false;
    }
    for (id, _) in list {
        if unit <= id.0 % above {
            return true;
        }
    }
    false
}

/// Marks the numbers of the variables that occur. Each link of the store is looked at once, and the
/// walk ends where all numbers are marked.
fn numbers_of_links(alloc: Global, p: &Shared) -> Result<Vec<bool>, NoMemory>
    requires { AreParts p.now }
    ensures { IfOk result (λ known. AreNumbersOf p.now known.items) }
{
    let mut visited = unmarked(alloc, p.monos.links() as usize)?;
    let mut known = unmarked(alloc, p.vars.len())?;
    let mut open = 0;
    for (id, _) in p.list {
        open = first_unmarked(known.as_slice(), open);
        if open >= known.len() {
            return Ok(known);
        }
        mark_powers(&mut visited, &mut known, p, *id);
    }
    Ok(known)
}

/// So many places, and none is marked.
fn unmarked(alloc: Global, count: usize) -> Result<Vec<bool>, NoMemory>
    ensures { IfOk result (λ marks. marks.items ≡ replicate count false) }
{
    let mut marks = Vec::new(alloc);
    marks.resize(count, false)?;
    Ok(marks)
}

/// The first place from there on that is not marked.
fn first_unmarked(marks: &[bool], start: usize) -> usize
    requires { (k : ℕ) → k < start → IsMarked marks.now k }
    ensures { (k : ℕ) → k < result → IsMarked marks.now k }
{
    let mut place = start;
    while place < marks.len() && marks[place] {
        place += 1;
    }
    place
}

/// Marks the numbers of the variables of a monomial, up to a link that was visited.
fn mark_powers(visited: &mut Vec<bool>, known: &mut Vec<bool>, p: &Shared, id: MonoId)
    requires index { IsIndexOf p.now id }
    requires room { length known.old.items ≡ length p.now.vars.now }
    requires visited { AreVisited p.now.monos.now visited.old.items known.old.items }
    ensures room { length known.new.items ≡ length p.now.vars.now }
    ensures kept { Extends known.old.items known.new.items }
    ensures marked { AreMarked known.new.items (monomial_of p.now.monos.now id) }
    ensures visited { AreVisited p.now.monos.now visited.new.items known.new.items }
    ensures only { (keys : List Var) → AllKeys (Contains keys) (told_powers p.now id)
        → AreKnown p.now.vars.now known.old.items keys
        → AreKnown p.now.vars.now known.new.items keys }
{
    let words = p.monos.words();
    let mut rest = id;
    while let Some(link) = p.monos.link(rest) {
        if mark_link(visited, words, rest) {
            return;
        }
        mark(known, link.var as usize);
        rest = link.next;
    }
}

/// Marks a link, and no word. Whether it was marked before.
fn mark_link(visited: &mut Vec<bool>, words: u64, id: MonoId) -> bool
    ensures before { IsTrue result
        → (words ≤ id.0) × IsMarked visited.old.items (id.0 - words) }
    ensures more { (k : ℕ) → IsMarked visited.new.items k
        → IsMarked visited.old.items k ⊎ (id.0 ≡ words + k) }
{
    words <= id.0 && mark(visited, (id.0 - words) as usize)
}

/// Marks a place. Whether it was marked before.
pub(crate) fn mark(visited: &mut Vec<bool>, place: usize) -> bool
    ensures length { length visited.new.items ≡ length visited.old.items }
    ensures before { result ≡ slice_index_or visited.old.items place false }
    ensures here { place < length visited.old.items → IsMarked visited.new.items place }
    ensures others { (k : ℕ) → k ≢ place
        → slice_index_or visited.new.items k false ≡ slice_index_or visited.old.items k false }
{
    match visited.get(place) {
        Some(true) => true,
        Some(false) => {
            visited[place] = true;
            false
        }
        None => false,
    }
}

/// The variables whose numbers are marked.
pub(crate) fn marked_variables(
    alloc: Global,
    vars: &[Var],
    known: &[bool],
) -> Result<Vec<Var>, NoMemory>
    requires { length known.now ≡ length vars.now }
    ensures { IfOk result (λ found. found.items ≡ marked vars.now known.now) }
{
    let mut found = Vec::with_capacity(alloc, vars.len())?;
    for i in 0..vars.len() {
        if known[i] {
            found.push(vars[i])?;
        }
    }
    Ok(found)
}

/// The variables of the monomials, in order and each once.
pub(crate) fn variables_of_terms(alloc: Global, terms: &[Term]) -> Result<Vars, NoMemory>
    ensures { IfOk result (λ vs. vs ≡ variables_of terms.now) }
{
    let mut variables = BTreeSet::new(alloc);
    let mut former: &[(Var, u32)] = &[];
    for (monomial, _) in terms {
        let powers = monomial.powers();
        insert_variables(&mut variables, former, powers)?;
        former = powers;
    }
    let items = variables.into_iter().collect(alloc)?;
    Ok(Vars { items })
}

/// Inserts the variables of a monomial, where those of the former monomial stand already.
fn insert_variables(
    variables: &mut BTreeSet<Var>,
    former: &[(Var, u32)],
    powers: &[(Var, u32)],
) -> Result<(), NoMemory>
    requires rising { IsStrictlySortedBy var_cmp variables.old.keys }
    requires former { AllKeys (Contains variables.old.keys) former.now }
    ensures keys { OnOk result (variables.new.keys
        ≡ fold (insert_key var_cmp) variables.old.keys (map (λ p. p.0) powers.now)) }
    ensures known { OnOk result (AllKeys (Contains variables.new.keys) powers.now) }
{
    for i in 0..powers.len() {
        insert_unless(variables, former, i, powers[i].0)?;
    }
    Ok(())
}

/// Inserts a variable, unless the former monomial has it at the same place.
fn insert_unless(
    variables: &mut BTreeSet<Var>,
    former: &[(Var, u32)],
    i: usize,
    v: Var,
) -> Result<(), NoMemory>
    requires rising { IsStrictlySortedBy var_cmp variables.old.keys }
    requires former { AllKeys (Contains variables.old.keys) former.now }
    ensures { OnOk result (variables.new.keys ≡ insert_key var_cmp variables.old.keys v) }
{
    if has_at(former, i, v) {
        return Ok(());
    }
    variables.insert(v)?;
    Ok(())
}

/// Whether the monomial has the variable at a place.
fn has_at(powers: &[(Var, u32)], i: usize, v: Var) -> bool
    ensures { IsTrue result → option_map (λ p. p.0) (slice_get powers.now i) ≡ Some v }
{
    match powers.get(i) {
        Some((w, _)) => *w == v,
        None => false,
    }
}

/// Both lengths together where they are short, and else the longer one.
fn likely_length(left: &[Var], right: &[Var]) -> usize {
    if left.len() <= FEW_VARIABLES && right.len() <= FEW_VARIABLES {
        return left.len() + right.len();
    }
    left.len().max(right.len())
}

/// The variables of both lists, in order and each once.
pub(crate) fn union(alloc: Global, left: &[Var], right: &[Var]) -> Result<Vars, NoMemory>
    requires left { IsStrictlySortedBy var_cmp left.now }
    requires right { IsStrictlySortedBy var_cmp right.now }
    ensures rising { IfOk result (IsStrictlySortedBy var_cmp) }
    ensures left { IfOk result (λ vs. (v : Var) → Contains left.now v → Contains vs v) }
    ensures right { IfOk result (λ vs. (v : Var) → Contains right.now v → Contains vs v) }
{
    let mut items = Vec::with_capacity(alloc, likely_length(left, right))?;
    let mut i = 0;
    let mut j = 0;
    while i < left.len() && j < right.len() {
        match left[i].cmp(&right[j]) {
            Ordering::Less => {
                items.push(left[i])?;
                i += 1;
            }
            Ordering::Greater => {
                items.push(right[j])?;
                j += 1;
            }
            Ordering::Equal => {
                items.push(left[i])?;
                i += 1;
                j += 1;
            }
        }
    }
    items.extend_from_slice(&left[i..])?;
    items.extend_from_slice(&right[j..])?;
    Ok(Vars { items })
}

/// The variables of both lists, in order and each once. The first list is mostly all of them.
pub(crate) fn with_others(alloc: Global, known: Vars, others: &[Var]) -> Result<Vars, NoMemory>
    requires known { IsStrictlySortedBy var_cmp known }
    requires others { IsStrictlySortedBy var_cmp others.now }
    ensures rising { IfOk result (IsStrictlySortedBy var_cmp) }
    ensures known { IfOk result (λ vs. (v : Var) → Contains known v → Contains vs v) }
    ensures others { IfOk result (λ vs. (v : Var) → Contains others.now v → Contains vs v) }
{
    if has_all(known.as_slice(), others) {
        return Ok(known);
    }
    union(alloc, known.as_slice(), others)
}

/// Whether the first list has each variable of the second.
pub(crate) fn has_all(list: &[Var], others: &[Var]) -> bool
    requires { IsStrictlySortedBy var_cmp list.now }
    ensures { IsTrue result → (v : Var) → Contains others.now v → Contains list.now v }
{
    let mut guess = 0u64;
    for v in others {
        match find_place(list, *v, guess) {
            Some(place) => guess = place.saturating_add(1),
            None => return false,
        }
    }
    true
}
