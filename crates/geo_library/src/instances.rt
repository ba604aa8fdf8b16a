//! The citing program as an instance of the cited one: what this asks of it, worked to its
//! statement.

ghost use Rattle.std.specs.Prelude.{◌≡◌, ◌≢◌, suc, List, ℕ, IfErr, IfOk, OnOk, length, map};
ghost use Rattle.std.specs.List.{AllByRecursion};
ghost use Rattle.geo_conditions.specs.Lists.{all_found};
ghost use Rattle.geo_library.specs.Inner.Asking.{AreAsked};
ghost use Rattle.geo_library.specs.Inner.Cases.{IsMissed, IsRenamedBy, IsWorked};
ghost use Rattle.geo_library.specs.Inner.Cases.{image_forms_from, progress_form};
ghost use Rattle.geo_library.specs.Inner.GoalsWorked.{TellsMiss};
ghost use Rattle.geo_library.specs.Inner.Knowing.{AreKnown, IsReadyItem};
ghost use Rattle.geo_library.specs.Inner.Missing.{IsFirstNotFound};
ghost use Rattle.geo_library.specs.Inner.Naming.{renaming_form};
ghost use Rattle.geo_library.specs.Instances.{statement_text};
ghost use Rattle.geo_library.specs.Renamings.{IsRenaming};
ghost use Rattle.geo_library.specs.Working.{no_instance};
ghost use Rattle.geo_lowering.specs.Lowering.{IsLowered, LoweredForm};
ghost use Rattle.geo_lowering.specs.declared.version.Version.TheVariants.{Two};
ghost use Rattle.geo_program.specs.FormTexts.{form_text};
ghost use Rattle.geo_program.specs.Forms.{statement_form};
ghost use Rattle.geo_program.specs.Inner.Printing.{whole_scope};
ghost use Rattle.geo_program.specs.Programs.{source_of};
ghost use Rattle.geo_program.specs.WellFormed.{IsWellFormed, Source};

use crate::asking::{AskedGoal, image_goals};
use crate::chains::Progress;
use crate::errors::CiteError;
use crate::figures::known_variables;
use crate::listing::missing_condition;
use crate::renaming::{Images, Renaming};
use crate::working::work_goals;
use geo_base::Text;
use geo_conditions::{Conditions, list_program};
use geo_lowering::{Params, Points, Version};
use geo_points::NoMemory;
use geo_poly::lists::Vars;
use geo_program::{Name, NameTable, Printer, Program};
use geo_terms::Steps;
use log_checker::versions::problem_by;
use std::alloc::Global;

/// The statement of the citing program, where all that the cited one asks, with the names that are
/// given, is so.
pub fn work(
    alloc: Global,
    theorem: &Program,
    case: &Program,
    renaming: &Renaming,
    given: &[Name],
    now: Progress,
) -> Result<Text, CiteError>
    requires { IsRenamedBy (source_of theorem.now) (source_of case.now) given.now
        (renaming_form renaming.now) }
    ensures worked { IfOk result (IsWorked (source_of theorem.now) (source_of case.now) given.now
        (renaming_form renaming.now) (progress_form now)) }
    ensures missed { IfErr result (TellsMiss (IsMissed (source_of theorem.now) (source_of case.now)
        given.now (renaming_form renaming.now) (progress_form now))) }
{
    let mut problem = problem_by(alloc, Version::Two, case)?;
    let known = known_in(alloc, &problem.steps, &problem.conditions)?;
    let asked = asked_texts(alloc, theorem, given, &problem.conditions)?;
    let goals = goals_at(
        alloc,
        &mut problem.steps,
        theorem,
        renaming,
        &problem.points,
        &problem.params,
    )?;
    work_goals(alloc, &problem.steps, &known, &goals, asked.missing, now)?;
    cited_statement(alloc, theorem, case, &asked.statement)
}

/// The variables that the conditions make known.
fn known_in(alloc: Global, steps: &Steps, listed: &Conditions) -> Result<Vars, NoMemory>
    requires { AllByRecursion (IsReadyItem steps.now.nodes) listed.now }
    ensures { IfOk result (λ vars. AreKnown steps.now.nodes listed.now vars) }
{
    known_variables(alloc, steps, listed.items.as_slice())
}

/// The texts that the cited program asks, with the names that are given.
#[derive(Drop)]
struct AskedTexts {
    /// The line of the first condition that is not listed, if there is one.
    missing: Option<u64>,
    /// The statement.
    statement: Text,
}

/// The texts that the cited program asks.
fn asked_texts(
    alloc: Global,
    theorem: &Program,
    given: &[Name],
    listed: &Conditions,
) -> Result<AskedTexts, NoMemory>
    requires { whole_scope given.now ≡ whole_scope theorem.now.names }
    ensures missing { IfOk result (λ asked. IsFirstNotFound (map (λ i. i.text) listed.now) given.now
        (all_found (source_of theorem.now)) asked.missing) }
    ensures statement { IfOk result (λ asked. asked.statement
        ≡ form_text given.now (statement_form theorem.now.terms theorem.now.statement)) }
{
    // `len` also says that the store is valid.
    let _ = theorem.terms.len();
    let names = NameTable::new(alloc, given)?;
    let printer = Printer {
        names,
        terms: &theorem.terms,
    };
    let commands = theorem.commands.as_slice();
    let conditions = list_program(alloc, &theorem.terms, commands, theorem.statement)?;
    let rows = conditions.items.as_slice();
    let items = listed.items.as_slice();
    let missing = missing_condition(alloc, &printer, rows, items)?;
    let statement = printer.statement_text(alloc, theorem.statement)?;
    Ok(AskedTexts { missing, statement })
}

/// The goals that the cited program asks, in the store of the citing one's steps. The lists say
/// where its points and parameters stand among them.
fn goals_at(
    alloc: Global,
    steps: &mut Steps,
    theorem: &Program,
    renaming: &Renaming,
    points: &Points,
    params: &Params,
) -> Result<Vec<AskedGoal>, NoMemory>
    ensures lowered { (q : Source) (form : LoweredForm) → form.construction ≡ steps.old
        → IsLowered Two q form
        → OnOk result (IsLowered Two q (record form { construction = steps.new })) }
    ensures goals { (q : Source) (form : LoweredForm) (texts : List (List ℕ))
        → IsWellFormed q → IsLowered Two q form → form.points ≡ points.now
        → form.params ≡ params.now
        → IsRenaming theorem.now.names q.names texts (renaming_form renaming.now)
        → IfOk result (λ asked. AreAsked steps.new.nodes asked.items (image_forms_from q
        (renaming_form renaming.now) theorem.now.terms 0 1 theorem.now.commands)) }
{
    let points = points.items.as_slice();
    let params = params.items.as_slice();
    let images = Images::new(alloc, renaming, points, params)?;
    let commands = theorem.commands.as_slice();
    let asked = image_goals(alloc, steps, &theorem.terms, commands, &images)?;
    // `count` also says that the steps are a construction.
    let _ = steps.count();
    Ok(asked)
}

/// The statement of the citing program, where its text is the one that is asked.
fn cited_statement(
    alloc: Global,
    theorem: &Program,
    case: &Program,
    asked: &Text,
) -> Result<Text, CiteError>
    ensures same { OnOk result (asked.now ≡ statement_text (source_of case.now)) }
    ensures cited { IfOk result (λ text. text ≡ statement_text (source_of case.now)) }
    ensures other { IfErr result (TellsMiss (λ miss.
        (miss ≡ no_instance (suc (length theorem.now.commands)))
        × (asked.now ≢ statement_text (source_of case.now)))) }
{
    // `len` also says that the store is valid.
    let _ = case.terms.len();
    let printer = Printer::new(alloc, case)?;
    let stated = printer.statement_text(alloc, case.statement)?;
    if asked.bytes.as_slice() != stated.bytes.as_slice() {
        return Err(CiteError::NotInstance {
            line: theorem.commands.as_slice().len() as u64 + 1,
        });
    }
    Ok(stated)
}
