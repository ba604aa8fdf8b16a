//! The cells of the picture in which points stand.

ghost use Rattle.std.specs.Prelude.{◌≡◌, ◌<◌, ◌-◌, ◌^◌, ◌/◌, ◌⊎◌, ℕ, All, IfErr, IfOk, IsErr, List, Ok};
ghost use Rattle.std.specs.Prelude.{OnOk, map, pos, unsigned_abs};
ghost use Rattle.std.specs.List.{AllByRecursion};
ghost use Rattle.ring_laws.specs.Fraction.{Fraction};
ghost use Rattle.frac_laws.specs.Numbers.{IsNumber};
ghost use Rattle.geo_place.specs.Placing.{IsDrawable};
ghost use Rattle.geo_place.specs.declared.placed.At.{At};
ghost use Rattle.geo_figure.specs.Drawing.{FitsNumbers, draw_turns, share_turn};
ghost use Rattle.geo_figure.specs.Inner.{AreBounds, IsCellOf, IsFrame, IsStep, Stops, cell_at};

use crate::bounds::{CoordinateBounds, PictureFrame, frame_of, x_of, y_of};
use crate::errors::DrawError;
use frac_laws::{Frac, FracTooLarge};
use geo_place::{At, difference_of, product_of, quotient_of};
use std::alloc::Global;

/// Where a point stands in the picture, and its letter.
#[derive(Clone, Copy, Debug, PartialEq, Eq)]
pub struct Cell {
    /// The column, counted from 0.
    pub column: u128,
    /// The line, counted from 0, from the top.
    pub line: u128,
    /// The first byte of the name.
    pub letter: u8,
}

/// A number without its fractional part, and without its sign.
fn floor(share: Frac) -> u128
    ensures { (a : Fraction) → IsNumber share a
        → result ≡ unsigned_abs a.numerator / a.denominator }
{
    share.num.unsigned_abs() / share.den.unsigned_abs()
}

/// The step in which a number lies, where the greatest lies this many steps from the least.
fn step_of(last: i128, bounds: CoordinateBounds, x: Frac) -> Result<u128, FracTooLarge>
    requires { unsigned_abs last < 2 ^ 127 }
    ensures { (n : ℕ) (xs : List Fraction) (a : Fraction) → last ≡ pos n → AreBounds bounds xs
        → IsNumber x a → IsStep n xs a result }
{
    if bounds.least.same(&bounds.greatest) {
        return Ok(0);
    }
    let offset = difference_of(Ok(x), Ok(bounds.least));
    let span = difference_of(Ok(bounds.greatest), Ok(bounds.least));
    let scaled = product_of(offset, Ok(Frac::new(last, 1)));
    match quotient_of(scaled, span) {
        Ok(share) => Ok(floor(share)),
        Err(refusal) => Err(refusal),
    }
}

/// The cell of a letter, at this column and this height. A refusal is told with the line.
fn cell_from(
    column: Result<u128, FracTooLarge>,
    height: Result<u128, FracTooLarge>,
    letter: u8,
    line: u64,
) -> Result<Cell, DrawError>
    ensures cell { IfOk result (λ c. (column ≡ Ok c.column) × (c.letter ≡ letter)
        × IfOk height (λ k. c.line ≡ 20 - k) × (IsErr height → ⊥)) }
    ensures refused { IfErr result (λ e.
        (e ≡ DrawError.TooLarge line) × (IsErr column ⊎ IsErr height)) }
{
    match (column, height) {
        (Ok(column), Ok(height)) => Ok(Cell {
            column,
            line: 20u128.saturating_sub(height),
            letter,
        }),
        _ => Err(DrawError::TooLarge { line }),
    }
}

/// The cell of a point.
fn cell_of(frame: &PictureFrame, at: &At) -> Result<Cell, DrawError>
    requires { IsDrawable at.now }
    ensures { (points : List At) → IsFrame frame.now points → IsCellOf points at.now result }
{
    let column = step_of(40, frame.x, x_of(at));
    let height = step_of(20, frame.y, y_of(at));
    cell_from(column, height, at.name.bytes[0], at.line)
}

/// The cells of points in this frame, in order.
fn cells_in(alloc: Global, frame: &PictureFrame, points: &[At]) -> Result<Vec<Cell>, DrawError>
    requires { All IsDrawable points.now }
    ensures cells { IfOk result (λ cells. (all : List At) → IsFrame frame.now all
        → cells.items ≡ map (cell_at all) points.now) }
    ensures passed { OnOk result ((all : List At) → IsFrame frame.now all
        → AllByRecursion FitsNumbers (map (share_turn all) points.now)) }
    ensures stops { IfErr result (λ e. (all : List At) → IsFrame frame.now all
        → Stops (map (share_turn all) points.now) e) }
{
    let mut cells = Vec::new(alloc);
    for at in points {
        cells.push(cell_of(frame, at)?)?;
    }
    Ok(cells)
}

/// The cells of points, in order.
pub fn cells_of(alloc: Global, points: &[At]) -> Result<Vec<Cell>, DrawError>
    requires { All IsDrawable points.now }
    ensures cells { IfOk result (λ cells. cells.items ≡ map (cell_at points.now) points.now) }
    ensures passed { OnOk result (AllByRecursion FitsNumbers (draw_turns points.now)) }
    ensures stops { IfErr result (Stops (draw_turns points.now)) }
{
    match frame_of(points)? {
        None => Ok(Vec::new(alloc)),
        Some(frame) => cells_in(alloc, &frame, points),
    }
}
