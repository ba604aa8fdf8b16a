//! Placed points as text.

ghost use Rattle.std.specs.Prelude.{◌≡◌, ◌∷◌, ◌++◌, IfOk, OnOk};
ghost use Rattle.std.specs.Fmt.{signed_decimal};
ghost use Rattle.geo_place.specs.Placing.{at_text, points_text};

use crate::placed::{At, Placed};
use geo_base::{Text, push_decimal};
use geo_points::NoMemory;
use std::alloc::Global;

/// Appends a blank and a number.
fn push_number(alloc: Global, out: &mut Vec<u8>, n: i128) -> Result<(), NoMemory>
    ensures { OnOk result (out.new.items ≡ out.old.items ++ 32 ∷ signed_decimal n) }
{
    out.push(b' ')?;
    push_decimal(alloc, out, n).map_err(|_| NoMemory)
}

/// Appends the line of a point.
fn push_point(alloc: Global, out: &mut Vec<u8>, at: &At) -> Result<(), NoMemory>
    ensures { OnOk result (out.new.items ≡ out.old.items ++ at_text at.now) }
{
    out.extend_from_slice(&at.name.bytes)?;
    push_number(alloc, out, at.x)?;
    push_number(alloc, out, at.y)?;
    push_number(alloc, out, at.w)?;
    out.push(b'\n')?;
    Ok(())
}

/// The points, a line `NAME x y w` each, and then `holds` or `fails`.
pub fn placed_text(alloc: Global, placed: &Placed) -> Result<Text, NoMemory>
    ensures { IfOk result (λ text. text ≡ points_text placed.now) }
{
    let mut bytes = Vec::new(alloc);
    for at in placed.points.items.iter() {
        push_point(alloc, &mut bytes, at)?;
    }
    let last: &[u8] = if placed.holds { b"holds\n" } else { b"fails\n" };
    bytes.extend_from_slice(last)?;
    Ok(Text { bytes })
}
