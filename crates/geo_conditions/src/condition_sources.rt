//! Where the conditions of commands and of the statement come from.

ghost use Rattle.std.specs.Prelude.{◌≡◌, ◌++◌};
ghost use Rattle.geo_lowering.specs.Conditions.{early_conditions, late_conditions};
ghost use Rattle.geo_terms.specs.Stores.{Store};
ghost use Rattle.geo_conditions.specs.Inner.ConditionLists.{AreSidesBraced, IsNumberBraced};
ghost use Rattle.geo_conditions.specs.Inner.ConditionLists.{IsSourceKept, conditions_given};
ghost use Rattle.geo_conditions.specs.Statements.{statement_conditions};

use crate::conditions::Condition;
use geo_points::{PointId, TermId};
use geo_program::{Command, Statement};

/// What gives conditions.
#[derive(Clone, Copy, Debug, PartialEq, Eq)]
pub enum ConditionSource {
    /// Nothing: there is no condition.
    Nothing,
    /// The command or the statement itself gives this one.
    One(Condition),
    /// An expression gives those of its ratios and divisors.
    Expression(TermId),
    /// Two expressions give theirs, one after the other.
    Expressions(TermId, TermId),
}

/// What gives the conditions of a command that do not name its point.
pub fn early_source(command: Command) -> ConditionSource
    ensures conditions { (nodes : Store) →
        early_conditions nodes command ≡ conditions_given nodes result }
    ensures kept { (nodes : Store) → IsNumberBraced nodes command → IsSourceKept nodes result }
{
    match command {
        Command::Line { a, b } => differ(a, b),
        Command::Med { a, b } => differ(a, b),
        Command::Intersec { a, b } => ConditionSource::One(Condition::Crossing { a, b }),
        Command::Inter { a, b, c, d } => not_parallel(a, b, c, d),
        Command::Foot { a, b, .. } => differ(a, b),
        Command::Pratio { r, .. } => ConditionSource::Expression(r),
        Command::Tratio { r, .. } => ConditionSource::Expression(r),
        Command::Online { a, b } => differ(a, b),
        Command::Lratio { r, .. } => ConditionSource::Expression(r),
        Command::Reflect { p, q, .. } => differ(p, q),
        Command::Circumcenter { a, b, c } => not_collinear(a, b, c),
        Command::Orthocenter { a, b, c } => not_collinear(a, b, c),
        Command::Oncircle { o, a } => differ(o, a),
        Command::Second { a, b, .. } => differ(a, b),
        Command::Cc { o, p, .. } => differ(o, p),
        Command::Inverse { p, o, .. } => differ(o, p),
        Command::Weights { r, s, .. } => ConditionSource::Expressions(r, s),
        Command::AssumeDifferent { a, b } => differ(a, b),
        Command::AssumeNotCollinear { a, b, c } => not_collinear(a, b, c),
        Command::AssumeNotParallel { a, b, c, d } => not_parallel(a, b, c, d),
        _ => ConditionSource::Nothing,
    }
}

/// What gives the conditions of a command that name its point X.
pub fn late_source(x: PointId, command: Command) -> ConditionSource
    ensures conditions { (nodes : Store) →
        late_conditions x command ≡ conditions_given nodes result }
    ensures kept { (nodes : Store) → IsSourceKept nodes result }
{
    match command {
        Command::Oncircle { o, a } => not_collinear(o, a, x),
        Command::Second { a, .. } => differ(a, x),
        Command::Cc { a, .. } => differ(a, x),
        _ => ConditionSource::Nothing,
    }
}

/// What gives the conditions of a statement, one after the other.
pub fn statement_sources(statement: Statement) -> (ConditionSource, ConditionSource)
    ensures conditions { (nodes : Store) → statement_conditions nodes statement
        ≡ conditions_given nodes result.0 ++ conditions_given nodes result.1 }
    ensures first { (nodes : Store) →
        AreSidesBraced nodes statement → IsSourceKept nodes result.0 }
    ensures second { (nodes : Store) →
        AreSidesBraced nodes statement → IsSourceKept nodes result.1 }
{
    match statement {
        Statement::Equal { e, f } => {
            (
                ConditionSource::Expression(e),
                ConditionSource::Expression(f),
            )
        }
        Statement::Harmonic { b, c, d, .. } => (differ(c, b), differ(b, d)),
        _ => (ConditionSource::Nothing, ConditionSource::Nothing),
    }
}

// That A and B differ.
fn differ(a: PointId, b: PointId) -> ConditionSource
    ensures { result ≡ ConditionSource.One (Condition.Different a b) }
{
    ConditionSource::One(Condition::Different { a, b })
}

// That A, B and C lie on no line.
fn not_collinear(a: PointId, b: PointId, c: PointId) -> ConditionSource
    ensures { result ≡ ConditionSource.One (Condition.NotCollinear a b c) }
{
    ConditionSource::One(Condition::NotCollinear { a, b, c })
}

// That AB and CD are not parallel.
fn not_parallel(a: PointId, b: PointId, c: PointId, d: PointId) -> ConditionSource
    ensures { result ≡ ConditionSource.One (Condition.NotParallel a b c d) }
{
    ConditionSource::One(Condition::NotParallel { a, b, c, d })
}
