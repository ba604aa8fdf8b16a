//! The points that the steps of a program make.

ghost use Rattle.std.specs.Prelude.{◌≡◌, ◌<◌, ◌≤◌, ◌+◌, ◌-◌, ◌*◌, ◌^◌, ◌∷◌, ◌⊎◌, [], All, IfErr};
ghost use Rattle.std.specs.Prelude.{IfOk, IsErrOf, OnOk, Some, drop, length, pos, slice_get};
ghost use Rattle.std.specs.Prelude.{slice_index_or, take, unsigned_abs};
ghost use Rattle.std.specs.List.{AllByRecursion};
ghost use Rattle.geo_lowering.specs.Lowering.{steps_of};
ghost use Rattle.geo_lowering.specs.StepForms.{StepForm, step_form};
ghost use Rattle.geo_lowering.specs.declared.version.Version.TheVariants.{Two};
ghost use Rattle.geo_points.specs.Placements.{SamePoint};
ghost use Rattle.geo_terms.specs.Stores.{Store};
ghost use Rattle.ring_laws.specs.Fraction.{whole};
ghost use Rattle.frac_laws.specs.Numbers.{IsNumber};
ghost use Rattle.geo_place.specs.Formulas.{Spot};
ghost use Rattle.geo_place.specs.Reckonings.{Overflows, IsResult};
ghost use Rattle.geo_place.specs.Evaluation.{TurnOverflows, Succeeds, at_line, make, makes};
ghost use Rattle.geo_place.specs.Inner.{AreResults, IsRun, IsSketchOf, Run, Stops, free_places};
ghost use Rattle.geo_place.specs.Inner.{point_at};

use crate::errors::PlaceError;
use crate::positions::{Position, Reckoned, whole_number};
use crate::sketch::Sketch;
use geo_conditions::Problem;
use geo_points::PointId;
use geo_terms::Step;

/// The free point of this number.
fn free_position(values: &[i128], free: usize) -> Position
    requires inside { 2 * free + 1 < length values.now }
    requires short { All (λ z. unsigned_abs z < 2 ^ 127) values.now }
    ensures x { IsNumber result.x (whole (slice_index_or values.now (2 * free) (pos 0))) }
    ensures y { IsNumber result.y (whole (slice_index_or values.now (2 * free + 1) (pos 0))) }
{
    Position {
        x: whole_number(values[2 * free]),
        y: whole_number(values[2 * free + 1]),
    }
}

/// The position that is reckoned on this line.
fn position_of(reckoned: Reckoned, line: u64) -> Result<Position, PlaceError>
    ensures position { IfOk result (λ s. (spot : Spot) → AreResults reckoned spot
        → IsResult s.x spot.x × IsResult s.y spot.y) }
    ensures refused { IfErr result (λ e. (spot : Spot) → AreResults reckoned spot
        → (e ≡ PlaceError.TooLarge line) × (Overflows spot.x ⊎ Overflows spot.y)) }
    ensures memory { ¬ IsErrOf result PlaceError.NoMemory }
{
    match (reckoned.x, reckoned.y) {
        (Ok(x), Ok(y)) => Ok(Position { x, y }),
        _ => Err(PlaceError::TooLarge { line }),
    }
}

/// How many free points the step makes.
fn free_count(step: Step) -> usize
    ensures { (nodes : Store) → result ≡ length (free_places 0 (step_form nodes step ∷ [])) }
{
    match step {
        Step::Point => 1,
        _ => 0,
    }
}

impl Sketch {
    /// Where the next point is, which this step makes.
    fn next_position(
        &self,
        problem: &Problem,
        values: &[i128],
        step: Step,
        line: u64,
    ) -> Result<Position, PlaceError>
        ghost run: { Run }
        requires run { IsRun run problem.now values.now }
        requires sketch { IsSketchOf run self.now }
        requires step { slice_get problem.now.steps.steps (length self.now.points.items)
            ≡ Some step }
        ensures position { IfOk result (λ s.
            SamePoint (point_at s) (run.placed.point (length self.now.points.items))) }
        ensures passed { OnOk result (TurnOverflows run.program run.placed
            (make (length self.now.points.items) (step_form problem.now.steps.nodes step)) → ⊥) }
        ensures stops { IfErr result (Stops run (at_line line
            (make (length self.now.points.items) (step_form problem.now.steps.nodes step) ∷ []))) }
        ensures memory { ¬ IsErrOf result PlaceError.NoMemory }
    {
        let terms = problem.steps.look();
        let y = PointId(self.points.len() as u32);
        match step {
            Step::Point => Ok(free_position(values, self.free)),
            made => position_of(self.step(terms, made, y), line),
        }
    }

    /// Places the next point.
    fn make_point(
        &mut self,
        problem: &Problem,
        values: &[i128],
        line: u64,
    ) -> Result<(), PlaceError>
        ghost run: { Run }
        requires run { IsRun run problem.now values.now }
        requires sketch { IsSketchOf run self.old }
        requires next { length self.old.points.items < length problem.now.steps.steps }
        ensures sketch { OnOk result (IsSketchOf run self.new) }
        ensures points { OnOk result
            (length self.new.points.items ≡ length self.old.points.items + 1) }
        ensures passed { OnOk result ((f : StepForm)
            → slice_get (steps_of Two run.program) (length self.old.points.items) ≡ Some f
            → TurnOverflows run.program run.placed (make (length self.old.points.items) f) → ⊥) }
        ensures stops { IfErr result (λ e. (f : StepForm)
            → slice_get (steps_of Two run.program) (length self.old.points.items) ≡ Some f
            → Stops run (at_line line (make (length self.old.points.items) f ∷ [])) e) }
    {
        let step = problem.steps.step(PointId(self.points.len() as u32));
        let position = self.next_position(problem, values, step, line)?;
        self.points.push(position)?;
        self.free += free_count(step);
        Ok(())
    }

    /// Places the points up to this number.
    pub fn make_points(
        &mut self,
        problem: &Problem,
        values: &[i128],
        to: u32,
        line: u64,
    ) -> Result<(), PlaceError>
        ghost run: { Run }
        requires run { IsRun run problem.now values.now }
        requires sketch { IsSketchOf run self.old }
        requires next { length self.old.points.items ≤ to }
        requires last { to ≤ length problem.now.steps.steps }
        ensures sketch { OnOk result (IsSketchOf run self.new) }
        ensures points { OnOk result (length self.new.points.items ≡ to) }
        ensures passed { OnOk result (AllByRecursion (Succeeds run.program run.placed)
            (at_line line (makes (length self.old.points.items)
            (take (to - length self.old.points.items)
            (drop (length self.old.points.items) (steps_of Two run.program)))))) }
        ensures stops { IfErr result (Stops run
            (at_line line (makes (length self.old.points.items)
            (take (to - length self.old.points.items)
            (drop (length self.old.points.items) (steps_of Two run.program)))))) }
    {
        for _ in self.points.len() as u32..to {
            self.make_point(problem, values, line)?;
        }
        Ok(())
    }
}
