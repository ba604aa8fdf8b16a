//! The least and the greatest coordinates of points.

ghost use Rattle.std.specs.Prelude.{◌≡◌, ◌≢◌, ◌∷◌, ◌⊎◌, [], All, IfErr, IfOk, IsErr, List, Ok, OnOk};
ghost use Rattle.std.specs.List.{AllByRecursion};
ghost use Rattle.ring_laws.specs.Fraction.{Fraction};
ghost use Rattle.frac_laws.specs.Numbers.{IsNumber};
ghost use Rattle.geo_place.specs.Placing.{IsDrawable};
ghost use Rattle.geo_place.specs.declared.placed.At.{At};
ghost use Rattle.geo_figure.specs.Drawing.{FitsNumbers, bound_turns};
ghost use Rattle.geo_figure.specs.Drawing.{x_of as x_coordinate_of, y_of as y_coordinate_of};
ghost use Rattle.geo_figure.specs.Inner.{AreBounds, AreWider, IsFrame, IsFrameOf, IsGreater};
ghost use Rattle.geo_figure.specs.Inner.{IsLesser, IsWiderFrame, Stops};

use crate::errors::DrawError;
use frac_laws::{Frac, FracTooLarge};
use geo_place::{At, difference_of};

/// The least and the greatest of some numbers.
#[derive(Clone, Copy)]
pub struct CoordinateBounds {
    /// The least.
    pub least: Frac,
    /// The greatest.
    pub greatest: Frac,
}

/// The bounds of both coordinates of some points.
#[derive(Clone, Copy)]
pub struct PictureFrame {
    /// Those of the first coordinates.
    pub x: CoordinateBounds,
    /// Those of the second coordinates.
    pub y: CoordinateBounds,
}

/// The first coordinate of a point.
pub fn x_of(at: &At) -> Frac
    requires { IsDrawable at.now }
    ensures { IsNumber result (x_coordinate_of at.now) }
{
    Frac::new(at.x, at.w)
}

/// The second coordinate of a point.
pub fn y_of(at: &At) -> Frac
    requires { IsDrawable at.now }
    ensures { IsNumber result (y_coordinate_of at.now) }
{
    Frac::new(at.y, at.w)
}

/// The bounds of one number.
fn bounds_of_one(x: Frac) -> CoordinateBounds
    ensures { (a : Fraction) → IsNumber x a → AreBounds result (a ∷ []) }
{
    CoordinateBounds {
        least: x,
        greatest: x,
    }
}

/// The lesser of the least number so far and one more.
fn lesser_of(least: Frac, x: Frac) -> Result<Frac, FracTooLarge>
    ensures { (a b : Fraction) → IsNumber least a → IsNumber x b → IsLesser a b result }
{
    match difference_of(Ok(x), Ok(least)) {
        Ok(below) => {
            if below.num < 0 {
                return Ok(x);
            }
            Ok(least)
        }
        Err(refusal) => Err(refusal),
    }
}

/// The greater of the greatest number so far and one more.
fn greater_of(greatest: Frac, x: Frac) -> Result<Frac, FracTooLarge>
    ensures { (a b : Fraction) → IsNumber greatest a → IsNumber x b → IsGreater a b result }
{
    match difference_of(Ok(x), Ok(greatest)) {
        Ok(above) => {
            if above.num > 0 {
                return Ok(x);
            }
            Ok(greatest)
        }
        Err(refusal) => Err(refusal),
    }
}

/// The bounds of the least and the greatest.
fn bounds_from(
    least: Result<Frac, FracTooLarge>,
    greatest: Result<Frac, FracTooLarge>,
) -> Result<CoordinateBounds, FracTooLarge>
    ensures bounds { IfOk result (λ b. (least ≡ Ok b.least) × (greatest ≡ Ok b.greatest)) }
    ensures refused { IsErr result → IsErr least ⊎ IsErr greatest }
{
    match (least, greatest) {
        (Ok(least), Ok(greatest)) => Ok(CoordinateBounds { least, greatest }),
        _ => Err(FracTooLarge),
    }
}

/// The bounds of some numbers and one more.
fn wider(bounds: CoordinateBounds, x: Frac) -> Result<CoordinateBounds, FracTooLarge>
    ensures { (xs : List Fraction) (a : Fraction) → xs ≢ [] → AreBounds bounds xs
        → IsNumber x a → AreWider xs a result }
{
    bounds_from(lesser_of(bounds.least, x), greater_of(bounds.greatest, x))
}

/// The frame of the bounds of both coordinates. A refusal is told with the line.
fn frame_from(
    x: Result<CoordinateBounds, FracTooLarge>,
    y: Result<CoordinateBounds, FracTooLarge>,
    line: u64,
) -> Result<PictureFrame, DrawError>
    ensures frame { IfOk result (λ f. (x ≡ Ok f.x) × (y ≡ Ok f.y)) }
    ensures refused { IfErr result (λ e.
        (e ≡ DrawError.TooLarge line) × (IsErr x ⊎ IsErr y)) }
{
    match (x, y) {
        (Ok(x), Ok(y)) => Ok(PictureFrame { x, y }),
        _ => Err(DrawError::TooLarge { line }),
    }
}

/// The frame of some points and one more.
fn wider_frame(frame: &PictureFrame, at: &At) -> Result<PictureFrame, DrawError>
    requires { IsDrawable at.now }
    ensures { (points : List At) → points ≢ [] → IsFrame frame.now points
        → IsWiderFrame points at.now result }
{
    let x = wider(frame.x, x_of(at));
    let y = wider(frame.y, y_of(at));
    frame_from(x, y, at.line)
}

/// The frame of one point.
fn frame_of_one(at: &At) -> PictureFrame
    requires { IsDrawable at.now }
    ensures { IsFrame result (at.now ∷ []) }
{
    PictureFrame {
        x: bounds_of_one(x_of(at)),
        y: bounds_of_one(y_of(at)),
    }
}

/// The frame of some points, if there are any, and one more.
fn next_frame(frame: Option<PictureFrame>, at: &At) -> Result<PictureFrame, DrawError>
    requires { IsDrawable at.now }
    ensures { (points : List At) → IsFrameOf frame points → IsWiderFrame points at.now result }
{
    match frame {
        None => Ok(frame_of_one(at)),
        Some(found) => wider_frame(&found, at),
    }
}

/// The frame of points, if there are any, found point by point.
pub fn frame_of(points: &[At]) -> Result<Option<PictureFrame>, DrawError>
    requires { All IsDrawable points.now }
    ensures frame { IfOk result (λ f. IsFrameOf f points.now) }
    ensures passed { OnOk result (AllByRecursion FitsNumbers (bound_turns [] points.now)) }
    ensures stops { IfErr result (Stops (bound_turns [] points.now)) }
{
    let mut frame = None;
    for at in points {
        frame = Some(next_frame(frame, at)?);
    }
    Ok(frame)
}
