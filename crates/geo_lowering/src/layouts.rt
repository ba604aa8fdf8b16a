//! Where all that has a name stands in the lowered form.

ghost use Rattle.std.specs.Prelude.{◌≡◌, ◌<◌, ◌≤◌, length, map, IfOk};
ghost use Rattle.geo_lowering.specs.Counting.{param_places, points_past};
ghost use Rattle.geo_lowering.specs.Lowering.{layout_of, line_places, pair_numbers, point_place};
ghost use Rattle.geo_lowering.specs.Lowering.{point_places};
ghost use Rattle.geo_lowering.specs.Parts.{layout_at};

use crate::lists::{Lines, Params, Points};
use crate::places::{place_lines, place_params, place_points, point_at};
use crate::version::Version;
use geo_points::{NoMemory, ParamId, PointId};
use geo_program::{Command, LineId};
use std::alloc::Global;

/// The places of the points, lines and parameters that a program names.
#[derive(Drop)]
pub struct Places {
    /// The numbers of the named points among all points.
    pub points: Points,
    /// The two points of each line.
    pub lines: Lines,
    /// The numbers of the parameters among all numbers.
    pub params: Params,
}

impl Places {
    /// The places that the commands give.
    pub fn new(alloc: Global, version: Version, commands: &[Command]) -> Result<Places, NoMemory>
        requires points { points_past version 0 commands.now ≤ 512 }
        requires commands { length commands.now < 4294967295 }
        ensures points { IfOk result (λ places. map (λ a. a.0) places.points
            ≡ point_places version 0 commands.now) }
        ensures lines { IfOk result (λ places.
            map pair_numbers places.lines ≡ line_places version
            (point_place version commands.now) 0 commands.now) }
        ensures params { IfOk result (λ places. map (λ t. t.0) places.params
            ≡ param_places 0 commands.now) }
        ensures layout { IfOk result (λ places. layout_at places ≡ layout_of version commands.now) }
    {
        let points = place_points(alloc, version, commands)?;
        let lines = place_lines(alloc, version, commands, &points.items)?;
        let params = place_params(alloc, commands)?;
        Ok(Places {
            points,
            lines,
            params,
        })
    }

    /// The number of a named point; past the end 0.
    pub fn point(&self, a: PointId) -> PointId
        ensures { result.0 ≡ (layout_at self.now).point a.0 }
    {
        point_at(&self.points.items, a)
    }

    /// The two points of a line; past the end 0 and 0.
    pub fn line(&self, a: LineId) -> (PointId, PointId)
        ensures { pair_numbers result ≡ (layout_at self.now).line a.0 }
    {
        match self.lines.items.get(a.0 as usize) {
            Some(pair) => *pair,
            None => (PointId(0), PointId(0)),
        }
    }

    /// The number of a parameter; past the end 0.
    pub fn param(&self, t: ParamId) -> ParamId
        ensures { result.0 ≡ (layout_at self.now).param t.0 }
    {
        match self.params.items.get(t.0 as usize) {
            Some(place) => *place,
            None => ParamId(0),
        }
    }
}
