//! The rows of a replacement, looked up by their variables.

ghost use Rattle.std.specs.Prelude.{◌≡◌, ◌<◌, All, IfNone, IfOk, IfSome, None, Some};
ghost use Rattle.std.specs.Prelude.{length, slice_get};
ghost use Rattle.std.specs.Option.{option_and_then, option_copied};
ghost use Rattle.geo_poly.specs.Replace.{row_of};
ghost use Rattle.geo_poly.specs.Inner.RowTables.{AreFirstPlaces, IsKnown};

use crate::rows::Row;
use crate::variables::Var;
use geo_points::NoMemory;
use std::alloc::Global;
use std::collections::BTreeMap;
use std::marker::Model;

/// A variable, and the place of its first row, where it has one.
#[derive(Clone, Copy)]
pub(crate) struct KnownPlace {
    /// The variable.
    pub var: Var,
    /// The place.
    pub place: Option<usize>,
}

impl KnownPlace {
    /// The place, where it is one of the rows.
    fn place_in(self, rows: &[Row]) -> Option<usize>
        ensures within { IfSome result (λ i. i < length rows.now) }
        ensures row { IfSome result (λ i. slice_get rows.now i
            ≡ option_and_then (slice_get rows.now) self.place) }
        ensures none { IfNone result
            (option_and_then (slice_get rows.now) self.place ≡ None) }
    {
        match self.place {
            Some(i) if i < rows.len() => Some(i),
            _ => None,
        }
    }
}

/// So many rows are searched one by one.
const FEW_ROWS: usize = 4;

/// Rows, and the place of the first row of each variable. There are no places where the rows are few,
/// or the memory was lacking: a replacement that is too large is refused as such also then.
pub(crate) struct RowTable<'a> {
    rows: &'a [Row],
    places: Option<BTreeMap<Var, usize>>,
    /// The variables of a polynomial by their numbers, so that most of them are found at once.
    known: Vec<KnownPlace>,
}

/// By hand, so that a caller's proof sees one call where a table is let go.
impl<'a> Drop for RowTable<'a> {
    fn drop(self) {
        let RowTable {
            rows: _,
            places: _,
            known: _,
        } = self;
    }
}

impl<'a> Model for RowTable<'a> {
    ghost use Rattle.std.specs.Prelude.{All, List, IfSome};
    ghost use Rattle.geo_poly.specs.declared.rows.Row.{Row};
    ghost use Rattle.geo_poly.specs.Inner.RowTables.{AreFirstPlaces, IsKnown};

    ghost Value = { List Row };

    ghost view = { λ table. table.rows.now };

    ghost invariant = { λ table. IfSome table.places (AreFirstPlaces table.rows.now)
        × All (IsKnown table.rows.now) table.known.items };
}

impl<'a> RowTable<'a> {
    /// The table of the rows, for a polynomial with these variables.
    pub(crate) fn new(alloc: Global, rows: &'a [Row], vars: &[Var]) -> RowTable<'a>
        ensures { result ≡ rows.now }
    {
        let places = known_first_places(alloc, rows);
        let known = match known_places(alloc, rows, vars, &places) {
            Ok(known) => known,
            Err(_) => Vec::new(alloc),
        };
        RowTable {
            rows,
            places,
            known,
        }
    }

    /// The rows.
    pub(crate) fn rows(&self) -> &[Row]
        ensures { result.now ≡ self.now }
    {
        self.rows
    }

    /// The first row of the variable, which is mostly the one of that number.
    pub(crate) fn find_row(&self, v: Var, number: u64) -> Option<&Row>
        ensures { option_copied result ≡ row_of self.now v }
    {
        match self.find_place(v, number) {
            Some(i) => Some(self.row(i)),
            None => None,
        }
    }

    /// The place of the first row of the variable, which is mostly the one of that number.
    pub(crate) fn find_place(&self, v: Var, number: u64) -> Option<usize>
        ensures within { IfSome result (λ i. i < length self.now) }
        ensures row { IfSome result (λ i. slice_get self.now i ≡ row_of self.now v) }
        ensures none { IfNone result (row_of self.now v ≡ None) }
    {
        if self.rows.is_empty() {
            return None;
        }
        match self.known.get(number as usize) {
            Some(known) if known.var == v => known.place_in(self.rows),
            _ => found_place(self.rows, &self.places, v),
        }
    }

    /// The row at a place.
    pub(crate) fn row(&self, i: usize) -> &Row
        requires { i < length self.now }
        ensures { slice_get self.now i ≡ Some result.now }
    {
        row_at(self.rows, i)
    }
}

/// The row at a place.
fn row_at(rows: &[Row], i: usize) -> &Row
    requires { i < length rows.now }
    ensures { slice_get rows.now i ≡ Some result.now }
{
    &rows[i]
}

/// The place of the first row of each variable; none where there are few rows, which are searched one
/// by one, and where the memory is lacking.
fn known_first_places(alloc: Global, rows: &[Row]) -> Option<BTreeMap<Var, usize>>
    ensures { IfSome result (AreFirstPlaces rows.now) }
{
    if rows.len() <= FEW_ROWS {
        return None;
    }
    first_places(alloc, rows).ok()
}

/// The place of the first row of each variable.
fn first_places(alloc: Global, rows: &[Row]) -> Result<BTreeMap<Var, usize>, NoMemory>
    ensures { IfOk result (AreFirstPlaces rows.now) }
{
    let mut places = BTreeMap::new(alloc);
    for i in (0..rows.len()).rev() {
        places.insert(rows[i].var, i)?;
    }
    Ok(places)
}

/// The places of the first rows of these variables.
fn known_places(
    alloc: Global,
    rows: &[Row],
    vars: &[Var],
    places: &Option<BTreeMap<Var, usize>>,
) -> Result<Vec<KnownPlace>, NoMemory>
    requires { IfSome places.now (AreFirstPlaces rows.now) }
    ensures { IfOk result (λ known. All (IsKnown rows.now) known.items) }
{
    let mut known = Vec::with_capacity(alloc, vars.len())?;
    for v in vars {
        known.push(known_place(rows, places, *v))?;
    }
    Ok(known)
}

/// The variable with the place of its first row.
fn known_place(rows: &[Row], places: &Option<BTreeMap<Var, usize>>, v: Var) -> KnownPlace
    requires { IfSome places.now (AreFirstPlaces rows.now) }
    ensures { IsKnown rows.now result }
{
    let place = found_place(rows, places, v);
    KnownPlace { var: v, place }
}

/// The place of the first row of the variable, where it has one.
fn found_place(rows: &[Row], places: &Option<BTreeMap<Var, usize>>, v: Var) -> Option<usize>
    requires { IfSome places.now (AreFirstPlaces rows.now) }
    ensures within { IfSome result (λ i. i < length rows.now) }
    ensures row { IfSome result (λ i. slice_get rows.now i ≡ row_of rows.now v) }
    ensures none { IfNone result (row_of rows.now v ≡ None) }
{
    match places {
        Some(places) => place_in(rows, places, v),
        None => first_place(rows, v),
    }
}

/// The place of the variable, where it is one of a row.
fn place_in(rows: &[Row], places: &BTreeMap<Var, usize>, v: Var) -> Option<usize>
    requires { AreFirstPlaces rows.now places.now }
    ensures within { IfSome result (λ i. i < length rows.now) }
    ensures row { IfSome result (λ i. slice_get rows.now i ≡ row_of rows.now v) }
    ensures none { IfNone result (row_of rows.now v ≡ None) }
{
    match places.get(&v) {
        Some(place) if *place < rows.len() => Some(*place),
        _ => None,
    }
}

/// The place of the first row of the variable, by a search.
fn first_place(rows: &[Row], v: Var) -> Option<usize>
    ensures within { IfSome result (λ i. i < length rows.now) }
    ensures row { IfSome result (λ i. slice_get rows.now i ≡ row_of rows.now v) }
    ensures none { IfNone result (row_of rows.now v ≡ None) }
{
    for i in 0..rows.len() {
        if rows[i].var == v {
            return Some(i);
        }
    }
    None
}
