//! The points that steps make, as they are reckoned.

ghost use Rattle.geo_points.specs.Points.{Point};
ghost use Rattle.geo_place.specs.Formulas.{Spot, aside as aside_of, crossing_spot, foot_spot};
ghost use Rattle.geo_place.specs.Formulas.{onwards as onwards_of, spot_of, weighted_spot};
ghost use Rattle.geo_place.specs.Inner.{AreResults, IsPosition};
ghost use Rattle.geo_place.specs.Reckonings.{HasResult, Reckoning};

use crate::positions::{Position, Reckoned};
use crate::quantities::{cross, dot, rise, run};
use crate::results::{difference_of, product_of, quotient_of, sum_of};
use frac_laws::{Frac, FracTooLarge};

/// The point itself.
pub fn there(w: &Position) -> Reckoned
    ensures { (W : Point) → IsPosition w.now W → AreResults result (spot_of W) }
{
    Reckoned {
        x: Ok(w.x),
        y: Ok(w.y),
    }
}

/// `W + r (V - U)`.
pub fn onwards(w: Reckoned, r: Result<Frac, FracTooLarge>, u: &Position, v: &Position) -> Reckoned
    ensures { (s : Spot) (e : Reckoning) (U V : Point) → AreResults w s → HasResult e r
        → IsPosition u.now U → IsPosition v.now V → AreResults result (onwards_of s e U V) }
{
    let x = sum_of(w.x, product_of(r, run(u, v)));
    let y = sum_of(w.y, product_of(r, rise(u, v)));
    Reckoned { x, y }
}

/// `W + r J (V - U)`, where J turns a quarter counter-clockwise.
pub fn aside(w: Reckoned, r: Result<Frac, FracTooLarge>, u: &Position, v: &Position) -> Reckoned
    ensures { (s : Spot) (e : Reckoning) (U V : Point) → AreResults w s → HasResult e r
        → IsPosition u.now U → IsPosition v.now V → AreResults result (aside_of s e U V) }
{
    let x = difference_of(w.x, product_of(r, rise(u, v)));
    let y = sum_of(w.y, product_of(r, run(u, v)));
    Reckoned { x, y }
}

/// `(O + r (U - O)) + s (V - O)`.
pub fn weighted(
    o: &Position,
    u: &Position,
    v: &Position,
    r: Result<Frac, FracTooLarge>,
    s: Result<Frac, FracTooLarge>,
) -> Reckoned
    ensures { (O U V : Point) (e f : Reckoning) → IsPosition o.now O → IsPosition u.now U
        → IsPosition v.now V → HasResult e r → HasResult f s
        → AreResults result (weighted_spot O U V e f) }
{
    onwards(onwards(there(o), r, o, u), s, o, v)
}

/// The point of the lines UV and PQ.
pub fn crossing(u: &Position, v: &Position, p: &Position, q: &Position) -> Reckoned
    ensures { (U V P Q : Point) → IsPosition u.now U → IsPosition v.now V → IsPosition p.now P
        → IsPosition q.now Q → AreResults result (crossing_spot U V P Q) }
{
    let t = quotient_of(cross(u, p, p, q), cross(u, v, p, q));
    onwards(there(u), t, u, v)
}

/// The foot of the perpendicular from P to the line UV.
pub fn foot(p: &Position, u: &Position, v: &Position) -> Reckoned
    ensures { (P U V : Point) → IsPosition p.now P → IsPosition u.now U → IsPosition v.now V
        → AreResults result (foot_spot P U V) }
{
    let t = quotient_of(dot(u, p, u, v), dot(u, v, u, v));
    onwards(there(u), t, u, v)
}
