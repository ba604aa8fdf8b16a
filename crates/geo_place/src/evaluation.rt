//! The evaluation of a program, command by command.

ghost use Rattle.std.specs.Prelude.{◌≡◌, ◌<◌, ◌≤◌, ◌+◌, ◌-◌, ◌*◌, ◌^◌, [], ℕ, All, IfErr, IfOk};
ghost use Rattle.std.specs.Prelude.{IsErrOf, OnOk, Some, drop, length, pos, slice_get};
ghost use Rattle.std.specs.Prelude.{slice_index_or};
ghost use Rattle.std.specs.Prelude.{unsigned_abs};
ghost use Rattle.ring_laws.specs.Fraction.{whole};
ghost use Rattle.frac_laws.specs.Numbers.{IsNumber};
ghost use Rattle.geo_program.specs.Programs.{source_of};
ghost use Rattle.geo_points.specs.declared.ids.PointId.{PointId};
ghost use Rattle.geo_lowering.specs.Conditions.{late_conditions};
ghost use Rattle.geo_lowering.specs.Counting.{points_named};
ghost use Rattle.geo_lowering.specs.Lowering.{point_place};
ghost use Rattle.geo_lowering.specs.declared.version.Version.TheVariants.{Two};
ghost use Rattle.geo_conditions.specs.Lists.{AreStoredGoals};
ghost use Rattle.geo_place.specs.Evaluation.{EndsAs, IsTriplePast, placed_all, turns_of};
ghost use Rattle.geo_place.specs.Inner.{EndsWith, IsRun, IsTaken, IsTripleOf, IsTripleStop, Run};
ghost use Rattle.geo_place.specs.Inner.{Stops, TellsTriple, point_at};

use crate::conditions::{all_hold, conditions_through, test_conditions};
use crate::errors::PlaceError;
use crate::naming::names_point;
use crate::positions::{Position, whole_number};
use crate::sketch::Sketch;
use crate::triples::{Triple, triple_of};
use crate::values::free_points;
use frac_laws::Frac;
use geo_conditions::Problem;
use geo_points::NoMemory;
use geo_program::{Command, Program};
use std::alloc::Global;

/// What comes of an evaluation that ends with all points placed.
#[derive(Drop)]
pub struct Evaluated {
    /// The triples of the named points, in order.
    pub triples: Vec<Triple>,
    /// Whether all goals are 0.
    pub holds: bool,
}

/// How far a program is evaluated.
#[derive(Drop)]
pub struct Progress {
    /// The points that are placed so far.
    pub sketch: Sketch,
    /// How many of the listed conditions are tested.
    pub tested: usize,
    /// The triples of the named points so far.
    pub triples: Vec<Triple>,
}

/// How many conditions of the command name its point.
fn late_count(command: &Command) -> usize
    ensures { (x : PointId) → result ≡ length (late_conditions x command.now) }
{
    match command {
        Command::Oncircle { .. } | Command::Second { .. } | Command::Cc { .. } => 1,
        _ => 0,
    }
}

/// Whole numbers as fractions.
fn numbers_of(alloc: Global, values: &[i128]) -> Result<Vec<Frac>, NoMemory>
    requires { All (λ z. unsigned_abs z < 2 ^ 127) values.now }
    ensures numbers { IfOk result (λ rs. (k : ℕ) (r : Frac) → slice_get rs.items k ≡ Some r
        → IsNumber r (whole (slice_index_or values.now k (pos 0)))) }
    ensures length { IfOk result (λ rs. length rs.items ≡ length values.now) }
{
    let mut numbers = Vec::new(alloc);
    for value in values {
        numbers.push(whole_number(*value))?;
    }
    Ok(numbers)
}

/// The triple of a position, on this line.
fn told(at: &Position, line: u64) -> Result<Triple, PlaceError>
    ensures triple { IfOk result (λ t. IsTripleOf t (point_at at.now)) }
    ensures fits { OnOk result (IsTriplePast (point_at at.now) → ⊥) }
    ensures stops { IfErr result (IsTripleStop at.now line) }
    ensures memory { ¬ IsErrOf result PlaceError.NoMemory }
{
    match triple_of(at) {
        Ok(triple) => Ok(triple),
        Err(_) => Err(PlaceError::TooLarge { line }),
    }
}

impl Progress {
    /// Nothing is evaluated.
    fn new(alloc: Global, values: &[i128], free: usize) -> Result<Progress, NoMemory>
        requires free { 2 * free ≤ length values.now }
        requires short { All (λ z. unsigned_abs z < 2 ^ 127) values.now }
        ensures points { IfOk result (λ p. p.sketch.points.items ≡ []) }
        ensures free { IfOk result (λ p. p.sketch.free ≡ 0) }
        ensures numbers { IfOk result (λ p. (k : ℕ) (r : Frac)
            → slice_get p.sketch.numbers.items k ≡ Some r
            → IsNumber r (whole (slice_index_or (drop (2 * free) values.now) k (pos 0)))) }
        ensures length { IfOk result (λ p.
            length p.sketch.numbers.items ≡ length (drop (2 * free) values.now)) }
        ensures tested { IfOk result (λ p. p.tested ≡ 0) }
        ensures triples { IfOk result (λ p. p.triples.items ≡ []) }
    {
        let numbers = numbers_of(alloc, &values[2 * free..])?;
        let sketch = Sketch {
            points: Vec::new(alloc),
            free: 0,
            numbers,
        };
        Ok(Progress {
            sketch,
            tested: 0,
            triples: Vec::new(alloc),
        })
    }

    /// Tells the triple of the last point.
    fn tell(&mut self, line: u64) -> Result<(), PlaceError>
        requires { 1 ≤ length self.old.sketch.points.items }
        ensures sketch { self.new.sketch ≡ self.old.sketch }
        ensures tested { self.new.tested ≡ self.old.tested }
        ensures triple { OnOk result ((s : Position) → slice_get self.old.sketch.points.items
            (length self.old.sketch.points.items - 1) ≡ Some s
            → TellsTriple self.old.triples.items self.new.triples.items s) }
        ensures stops { IfErr result (λ e. (s : Position) → slice_get self.old.sketch.points.items
            (length self.old.sketch.points.items - 1) ≡ Some s → IsTripleStop s line e) }
    {
        let last = self.sketch.points[self.sketch.points.len() - 1];
        self.triples.push(told(&last, line)?)?;
        Ok(())
    }

    /// Evaluates the command of this number, counted from 0: its conditions that do not name its
    /// point, its steps, the triple of its point, if it names one, and its other conditions. An
    /// assumption has its condition alone.
    fn take_command(
        &mut self,
        problem: &Problem,
        values: &[i128],
        k: usize,
        command: &Command,
    ) -> Result<(), PlaceError>
        ghost run: { Run }
        requires run { IsRun run problem.now values.now }
        requires taken { IsTaken run k self.old }
        requires command { slice_get run.program.commands k ≡ Some command.now }
        ensures taken { OnOk result (IsTaken run (k + 1) self.new) }
        ensures stops { IfErr result (Stops run (turns_of run.program)) }
    {
        let after = problem.after.items.as_slice();
        let to = after[k];
        let line = k as u64 + 1;
        let items = problem.conditions.items.as_slice();
        let end = conditions_through(items, self.tested, line);
        let middle = end - late_count(command);
        let terms = problem.steps.look();
        test_conditions(
            &self.sketch,
            terms,
            &items[self.tested..middle],
            self.tested,
        )?;
        self.sketch.make_points(problem, values, to, line)?;
        if names_point(command) {
            self.tell(line)?;
        }
        test_conditions(&self.sketch, terms, &items[middle..end], middle)?;
        self.tested = end;
        Ok(())
    }
}

/// Evaluates a program at values.
pub fn evaluate(
    alloc: Global,
    program: &Program,
    problem: &Problem,
    values: &[i128],
) -> Result<Evaluated, PlaceError>
    ghost run: { Run }
    requires run { IsRun run problem.now values.now }
    requires goals { AreStoredGoals Two run.program problem.now.steps.nodes problem.now.goals }
    requires program { source_of program.now ≡ run.program }
    ensures placed { IfOk result (λ e. EndsAs run.program run.placed (placed_all e.holds)) }
    ensures told { IfOk result (λ e.
        length e.triples.items ≡ points_named run.program.commands) }
    ensures triples { IfOk result (λ e. (a : ℕ) (t : Triple)
        → slice_get e.triples.items a ≡ Some t
        → IsTripleOf t (run.placed.point (point_place Two run.program.commands a))) }
    ensures stopped { IfErr result (EndsWith run) }
{
    let commands = program.commands.as_slice();
    let mut progress = Progress::new(alloc, values, free_points(commands))?;
    for (k, command) in commands.iter().enumerate() {
        progress.take_command(problem, values, k, command)?;
    }
    let Progress {
        sketch,
        tested,
        triples,
    } = progress;
    let terms = problem.steps.look();
    let items = problem.conditions.items.as_slice();
    test_conditions(&sketch, terms, &items[tested..], tested)?;
    let holds = all_hold(&sketch, terms, &problem.goals.items)?;
    Ok(Evaluated { triples, holds })
}
