//! Rows of moves that are kept from line to line.

ghost use Rattle.std.specs.Prelude.{◌≡◌, ◌∷◌, ◌++◌, [], IfOk, IsSomeAnd, IsTrue, OnOk, Some, map};
ghost use Rattle.elim_apply.specs.Kept.{IsKept};
ghost use Rattle.elim_apply.specs.LemmaTable.{lemma_table, row_of_move};
ghost use Rattle.fraction_poly.specs.Inner.Known.{IsKnownOf};
ghost use Rattle.fraction_poly.specs.TableRows.{RowFits};

use fraction_poly::{KnownNumbers, RowDraft, RowNumbers};
use geo_logs::Move;
use geo_points::NoMemory;
use geo_poly::{Piece, Row, Var};
use geo_terms::Steps;
use std::alloc::Global;

/// The row that a move has for a variable.
#[derive(Drop)]
pub(crate) struct KeptRow {
    /// The move.
    pub mv: Move,
    /// The variable.
    pub var: Var,
    /// The row as it is written.
    pub draft: RowDraft,
    /// How large it may be.
    pub numbers: RowNumbers,
    /// The row multiplied out, but where that has not been done yet, or a line has it.
    pub made: Option<Row>,
    /// The denominator, likewise.
    pub den: Option<Piece>,
}

impl KeptRow {
    /// Whether it is the row of the move for the variable.
    pub fn is_of(&self, mv: &Move, var: Var) -> bool
        ensures { IsTrue result → (self.now.mv ≡ mv.now) × (self.now.var ≡ var) }
    {
        self.var == var && is_same(&self.mv, mv)
    }

    /// Hands the row over, multiplied out, as the last of a list.
    pub fn take_row(
        &mut self,
        alloc: Global,
        steps: &Steps,
        numbers: &mut KnownNumbers,
        rows: &mut Vec<Row>,
    ) -> Result<(), NoMemory>
        requires kept { IsKept steps.now self.old }
        requires fits { IsSomeAnd (row_of_move steps.now self.old.mv self.old.var) RowFits }
        requires known { IsKnownOf steps.now.nodes numbers.old }
        ensures row { OnOk result (map Some rows.new.items ≡ map Some rows.old.items
            ++ lemma_table.row steps.now self.old.mv self.old.var ∷ []) }
        ensures kept { IsKept steps.now self.new }
        ensures known { IsKnownOf steps.now.nodes numbers.new }
    {
        match self.made.take() {
            Some(row) => rows.push(row)?,
            None => rows.push(self.draft.row(alloc, steps.look(), numbers, self.var)?)?,
        }
        Ok(())
    }

    /// The denominator multiplied out, which is handed over.
    pub fn take_denominator(
        &mut self,
        alloc: Global,
        steps: &Steps,
        numbers: &mut KnownNumbers,
    ) -> Result<Piece, NoMemory>
        requires kept { IsKept steps.now self.old }
        requires fits { IsSomeAnd (row_of_move steps.now self.old.mv self.old.var) RowFits }
        requires known { IsKnownOf steps.now.nodes numbers.old }
        ensures den { IfOk result (λ f. f ≡ lemma_table.denominator steps.now self.old.mv) }
        ensures kept { IsKept steps.now self.new }
        ensures known { IsKnownOf steps.now.nodes numbers.new }
    {
        match self.den.take() {
            Some(den) => Ok(den),
            None => self.draft.denominator(alloc, steps.look(), numbers),
        }
    }
}

/// Whether both are the same move.
fn is_same(a: &Move, b: &Move) -> bool
    ensures { IsTrue result → a.now ≡ b.now }
{
    match (*a, *b) {
        (
            Move::Ratio { var, lemma, at },
            Move::Ratio {
                var: w,
                lemma: other,
                at: z,
            },
        ) => lemma == other && at == z && var == w,
        (Move::Point(y), Move::Point(z)) => y == z,
        (Move::Coords, Move::Coords) => true,
        _ => false,
    }
}
