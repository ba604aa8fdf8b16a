//! The rows of moves that are known already.

ghost use Rattle.std.specs.Prelude.{◌≡◌, ◌<◌, ◌∷◌, ◌++◌, [], IfOk, IfSome, OnOk, Some, length, map};
ghost use Rattle.std.specs.Prelude.{option_map};
ghost use Rattle.std.specs.Prelude.{slice_get};
ghost use Rattle.elim_apply.specs.declared.kept_row.KeptRow.{KeptRow};
ghost use Rattle.elim_apply.specs.Kept.{AreKnownRows, CanBeMade, IsKept, IsRowOf};
ghost use Rattle.elim_apply.specs.LemmaTable.{lemma_table, row_of_move};
ghost use Rattle.fraction_poly.specs.TableRows.{HasPointsBelow, row_numbers};
ghost use Rattle.geo_logs.specs.Moves.{place_of};
ghost use Rattle.geo_logs.specs.Naming.{IsPlaceBelow};
ghost use Rattle.geo_terms.specs.Constructions.{Construction};

use crate::drafted::draft_of;
use crate::kept_row::KeptRow;
use fraction_poly::{KnownNumbers, RowNumbers};
use geo_logs::Move;
use geo_points::NoMemory;
use geo_poly::{Piece, Row, Var};
use geo_terms::Steps;
use std::alloc::Global;
use std::collections::HashMap;

/// So many rows are kept at most.
const MOST_ROWS: usize = 4096;

/// A row whose numerator may have more monomials is not kept.
const LARGE: u128 = 64;

/// The places of so many rows of a line are remembered.
const REMEMBERED: usize = 16;

/// The numbers of a construction's steps, and the rows of moves on it. Each is made when it is asked
/// for first, and then kept, but for rows that are large or very many.
pub struct KnownRows {
    numbers: KnownNumbers,
    rows: Vec<KeptRow>,
    /// Where a row probably stands, by the key of its move and its variable.
    places: HashMap<u64, usize>,
    /// Where the rows of the line probably stand, in their order.
    recent: [usize; REMEMBERED],
}

/// By hand, so that a caller's proof sees one call where they are let go.
impl Drop for KnownRows {
    fn drop(self) {
        let KnownRows {
            numbers: _,
            rows: _,
            places: _,
            recent: _,
        } = self;
    }
}

impl KnownRows {
    /// Nothing is known yet.
    pub fn new(alloc: Global) -> Result<KnownRows, NoMemory>
        ensures { IfOk result (λ known. (c : Construction) → AreKnownRows c known) }
    {
        Ok(KnownRows {
            numbers: KnownNumbers::new(alloc)?,
            rows: Vec::new(alloc),
            places: HashMap::new(alloc),
            recent: [0; REMEMBERED],
        })
    }

    /// The numbers of the row that the move has for the variable. It is probably the `nth` row of
    /// the line.
    pub(crate) fn row_numbers(
        &mut self,
        alloc: Global,
        steps: &Steps,
        mv: &Move,
        var: Var,
        nth: usize,
    ) -> Result<Option<RowNumbers>, NoMemory>
        requires place { IsPlaceBelow (length steps.now.steps) (place_of mv.now) }
        requires var { HasPointsBelow (length steps.now.steps) var }
        requires known { AreKnownRows steps.now self.old }
        ensures numbers { IfOk result
            (λ o. o ≡ option_map row_numbers (row_of_move steps.now mv.now var)) }
        ensures known { AreKnownRows steps.now self.new }
    {
        if let Some(i) = self.place(mv, var) {
            if let Some(recent) = self.recent.get_mut(nth) {
                *recent = i;
            }
            return Ok(Some(self.rows[i].numbers));
        }
        let Some(draft) = draft_of(alloc, steps, mv, var)? else {
            return Ok(None);
        };
        let numbers = draft.numbers(alloc, steps.look(), &mut self.numbers)?;
        self.keep(KeptRow {
            mv: *mv,
            var,
            draft,
            numbers,
            made: None,
            den: None,
        })?;
        Ok(Some(numbers))
    }

    /// Keeps a row.
    fn keep(&mut self, row: KeptRow) -> Result<(), NoMemory>
        ensures { (c : Construction) → AreKnownRows c self.old → IsKept c row
            → AreKnownRows c self.new }
    {
        if row.numbers.ka > LARGE || self.rows.len() >= MOST_ROWS {
            return Ok(());
        }
        self.places.insert(key(&row.mv, row.var), self.rows.len())?;
        self.rows.push(row)?;
        Ok(())
    }

    /// The place of the row of the move for the variable, where it is kept.
    fn place(&self, mv: &Move, var: Var) -> Option<usize>
        ensures { IfSome result (λ i. (kept : KeptRow)
            × (slice_get self.now.rows.items i ≡ Some kept)
            × (kept.mv ≡ mv.now) × (kept.var ≡ var)) }
    {
        let Some(place) = self.places.get(&key(mv, var)) else {
            return None;
        };
        match self.rows.get(*place) {
            Some(row) if row.is_of(mv, var) => Some(*place),
            _ => None,
        }
    }

    /// The place of the row of the move for the variable, which is probably the `nth` row of the
    /// line, where it is kept.
    fn recent_place(&self, mv: &Move, var: Var, nth: usize) -> Option<usize>
        ensures { IfSome result (λ i. (kept : KeptRow)
            × (slice_get self.now.rows.items i ≡ Some kept)
            × (kept.mv ≡ mv.now) × (kept.var ≡ var)) }
    {
        let Some(place) = self.recent.get(nth) else {
            return self.place(mv, var);
        };
        match self.rows.get(*place) {
            Some(row) if row.is_of(mv, var) => Some(*place),
            _ => self.place(mv, var),
        }
    }

    /// Hands the row of the move for the variable over, multiplied out, as the last of a list. It is
    /// probably the next row of the line.
    pub(crate) fn take_row(
        &mut self,
        alloc: Global,
        steps: &Steps,
        mv: &Move,
        var: Var,
        rows: &mut Vec<Row>,
    ) -> Result<(), NoMemory>
        requires place { IsPlaceBelow (length steps.now.steps) (place_of mv.now) }
        requires row { CanBeMade steps.now mv.now var }
        requires known { AreKnownRows steps.now self.old }
        ensures row { OnOk result (map Some rows.new.items ≡ map Some rows.old.items
            ++ lemma_table.row steps.now mv.now var ∷ []) }
        ensures known { AreKnownRows steps.now self.new }
    {
        if let Some(i) = self.recent_place(mv, var, rows.len()) {
            return self.rows[i].take_row(alloc, steps, &mut self.numbers, rows);
        }
        match draft_of(alloc, steps, mv, var)? {
            Some(draft) => rows.push(draft.row(alloc, steps.look(), &mut self.numbers, var)?)?,
            None => unreachable!(),
        }
        Ok(())
    }

    /// The denominator of the move, whose first row is that for the variable.
    pub(crate) fn take_denominator(
        &mut self,
        alloc: Global,
        steps: &Steps,
        mv: &Move,
        var: Var,
    ) -> Result<Piece, NoMemory>
        requires place { IsPlaceBelow (length steps.now.steps) (place_of mv.now) }
        requires row { CanBeMade steps.now mv.now var }
        requires known { AreKnownRows steps.now self.old }
        ensures den { IfOk result (λ f. f ≡ lemma_table.denominator steps.now mv.now) }
        ensures known { AreKnownRows steps.now self.new }
    {
        if let Some(i) = self.recent_place(mv, var, 0) {
            return self.rows[i].take_denominator(alloc, steps, &mut self.numbers);
        }
        match draft_of(alloc, steps, mv, var)? {
            Some(draft) => draft.denominator(alloc, steps.look(), &mut self.numbers),
            None => unreachable!(),
        }
    }

    /// Takes a row back, which is probably the `nth` row of the line.
    pub(crate) fn put_row(&mut self, mv: &Move, row: Row, nth: usize)
        ensures { (c : Construction) → AreKnownRows c self.old → IsRowOf c mv.now row
            → AreKnownRows c self.new }
    {
        let Some(i) = self.recent_place(mv, row.var, nth) else {
            return;
        };
        self.rows[i].made = Some(row);
    }

    /// Takes the denominator back, where it was that of the row of the variable.
    pub(crate) fn put_denominator(&mut self, mv: &Move, var: Var, den: Piece)
        ensures { (c : Construction) → AreKnownRows c self.old
            → den ≡ lemma_table.denominator c mv.now → AreKnownRows c self.new }
    {
        let Some(i) = self.recent_place(mv, var, 0) else {
            return;
        };
        self.rows[i].den = Some(den);
    }
}

/// A number that mostly differs where the move or the variable does.
fn key(mv: &Move, var: Var) -> u64 {
    let of_move = match *mv {
        Move::Ratio { lemma, at, .. } => packed([1, lemma, at.0, 0]),
        Move::Point(at) => packed([0, 0, at.0, 1]),
        Move::Coords => packed([0, 0, 0, 2]),
    };
    let of_var = match var {
        Var::R(a, b, c, d) => packed([a.0, b.0, c.0, d.0]),
        Var::S(a, b, c) => packed([a.0, b.0, c.0, 1023]),
        Var::P(a, b, c) => packed([a.0, b.0, c.0, 1022]),
        Var::X(a) | Var::Y(a) => packed([a.0, 0, 0, 1021]),
        Var::T(t) => packed([t.0, 0, 0, 1020]),
    };
    of_move.wrapping_mul(40_503).wrapping_add(of_var)
}

/// The four numbers in one, where each is less than 1024.
fn packed(numbers: [u32; 4]) -> u64 {
    let [a, b, c, d] = numbers;
    let (high, low) = (pair(a, b), pair(c, d));
    high.wrapping_mul(1_048_576).wrapping_add(low)
}

/// Two numbers in one.
fn pair(a: u32, b: u32) -> u64 {
    (a as u64).wrapping_mul(1024).wrapping_add(b as u64)
}
