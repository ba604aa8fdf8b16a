//! Placed points as a drawing.

ghost use Rattle.std.specs.Prelude.{All};
ghost use Rattle.geo_place.specs.Placing.{IsDrawable};
ghost use Rattle.geo_figure.specs.Drawing.{IsDrawn};

use crate::cells::cells_of;
use crate::errors::DrawError;
use crate::picture::push_picture;
use geo_base::Text;
use geo_place::{Placed, placed_text};
use std::alloc::Global;

/// The drawing: 21 lines of 41 bytes, and then the points as text. What it is given came from
/// `place`.
pub fn draw(alloc: Global, placed: &Placed) -> Result<Text, DrawError>
    requires { All IsDrawable placed.now.points }
    ensures { IsDrawn placed.now result }
{
    let cells = cells_of(alloc, &placed.points.items)?;
    let mut bytes = Vec::new(alloc);
    push_picture(&mut bytes, &cells)?;
    let text = placed_text(alloc, placed)?;
    bytes.extend_from_slice(&text.bytes)?;
    Ok(Text { bytes })
}
