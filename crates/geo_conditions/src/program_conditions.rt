//! The conditions of a program: those of each command, a line each, and then those of the
//! statement.

ghost use Rattle.std.specs.Prelude.{◌≡◌, ◌<◌, ◌≤◌, List, IfOk, OnOk, map};
ghost use Rattle.std.specs.List.{AllByRecursion};
ghost use Rattle.geo_lowering.specs.Counting.{counted, is_made, named, points_named};
ghost use Rattle.geo_program.specs.declared.names.Name.{Name};
ghost use Rattle.geo_program.specs.declared.names.NameKind.TheVariants as kind;
ghost use Rattle.geo_terms.specs.Stores.{IsStore};
ghost use Rattle.geo_conditions.specs.Inner.ConditionLists.{AreSidesBraced, IsConditionList};
ghost use Rattle.geo_conditions.specs.Inner.ConditionLists.{IsNumberBraced, IsSourceKept, Lists};
ghost use Rattle.geo_conditions.specs.Inner.ConditionLists.{conditions_given, found_of};
ghost use Rattle.geo_conditions.specs.Lists.{AreConditions, found_at, found_from};
ghost use Rattle.geo_conditions.specs.Statements.{statement_conditions};

use crate::condition_list::ConditionList;
use crate::condition_sources::{ConditionSource, early_source, late_source, statement_sources};
use geo_points::{NoMemory, PointId};
use geo_program::{Command, NameKind, Statement};
use geo_terms::Terms;
use std::alloc::Global;

// Whether the command names a point.
fn names_point(command: Command) -> bool
    ensures { result ≡ is_made kind.Point (named command) }
{
    matches!(command.makes(), Some(NameKind::Point))
}

/// The number of the next named point after a command, where it is x before.
pub fn next_point(x: u32, command: Command) -> u32
    requires { x < 4294967295 }
    ensures { result ≡ counted kind.Point (named command) x }
{
    if names_point(command) { x + 1 } else { x }
}

impl ConditionList {
    // Lists what a source gives.
    fn list_source(
        &mut self,
        terms: &Terms,
        source: ConditionSource,
        line: u64,
    ) -> Result<(), NoMemory>
        requires list { IsConditionList terms.now self.old }
        requires kept { IsSourceKept terms.now source }
        ensures { OnOk result (Lists terms.now self.old self.new
            (found_at line (conditions_given terms.now source))) }
    {
        match source {
            ConditionSource::Nothing => Ok(()),
            ConditionSource::One(condition) => self.add(terms, condition, line),
            ConditionSource::Expression(e) => self.list_expression(terms, e, line),
            ConditionSource::Expressions(e, f) => self.list_both(terms, e, f, line),
        }
    }

    // Lists the conditions of the commands, whose lines are counted from 1.
    fn list_commands(&mut self, terms: &Terms, commands: &[Command]) -> Result<(), NoMemory>
        requires list { IsConditionList terms.now self.old }
        requires braced { AllByRecursion (IsNumberBraced terms.now) commands.now }
        requires few { points_named commands.now ≤ 512 }
        ensures { OnOk result (Lists terms.now self.old self.new
            (found_from terms.now 0 1 commands.now)) }
    {
        let mut x = 0;
        for (k, command) in commands.iter().enumerate() {
            let line = k as u64 + 1;
            self.list_source(terms, early_source(*command), line)?;
            self.list_source(terms, late_source(PointId(x), *command), line)?;
            x = next_point(x, *command);
        }
        Ok(())
    }

    // Lists the conditions of the statement.
    fn list_statement(
        &mut self,
        terms: &Terms,
        statement: Statement,
        line: u64,
    ) -> Result<(), NoMemory>
        requires list { IsConditionList terms.now self.old }
        requires braced { AreSidesBraced terms.now statement }
        ensures { OnOk result (Lists terms.now self.old self.new
            (found_at line (statement_conditions terms.now statement))) }
    {
        let (first, second) = statement_sources(statement);
        self.list_source(terms, first, line)?;
        self.list_source(terms, second, line)
    }
}

/// The list of conditions of a program with these parts.
pub fn list_program(
    alloc: Global,
    terms: &Terms,
    commands: &[Command],
    statement: Statement,
) -> Result<ConditionList, NoMemory>
    requires store { IsStore terms.now }
    requires braced { AllByRecursion (IsNumberBraced terms.now) commands.now }
    requires few { points_named commands.now ≤ 512 }
    requires sides { AreSidesBraced terms.now statement }
    ensures valid { IfOk result (λ list. IsConditionList terms.now list) }
    ensures conditions { IfOk result (λ list. (names : List Name) → AreConditions
        (record {
          names = names;
          nodes = terms.now;
          commands = commands.now;
          statement = statement;
        })
        (map (found_of terms.now) list.items.items)) }
{
    let mut list = ConditionList::new(alloc);
    list.list_commands(terms, commands)?;
    list.list_statement(terms, statement, commands.len() as u64 + 1)?;
    Ok(list)
}
