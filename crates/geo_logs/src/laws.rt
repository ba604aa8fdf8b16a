//! What is proved of logs. The functions do nothing: what each says is its contract.

ghost use Rattle.geo_logs.specs.Laws.{AcceptedGoalsAreZero, AcceptedSampleRealises};
ghost use Rattle.geo_logs.specs.Laws.{ChainsNameNoLater, ChargesAreSpent, DefinedLogIsUnique};
ghost use Rattle.geo_logs.specs.Laws.{ImpossibleIsNeverMet, NoneIsDueAfterCut};
ghost use Rattle.geo_logs.specs.Laws.{ProversLogIsAccepted, ProversLogIsUnique};
ghost use Rattle.geo_logs.specs.WalkLaws.{LogsAreWalked, ProversWalkIsUnique, StepsAgree};
ghost use Rattle.geo_logs.specs.WalkLaws.{WalksAreBeginnings};

/// Where a log is accepted with Proved, each goal's term is 0 in every placement that meets the
/// steps, wherever it has a value; with False(g) this holds of the goals before goal g.
pub fn accepted_goals_are_zero()
    ensures { AcceptedGoalsAreZero }
{}

/// Where a log is accepted with Impossible(k), condition k holds in no placement that meets the
/// steps.
pub fn impossible_is_never_met()
    ensures { ImpossibleIsNeverMet }
{}

/// The sample of an accepted log makes the conditions hold, one after another while a placement is
/// made; and with False(g) goal g is not 0 there.
pub fn accepted_sample_realises()
    ensures { AcceptedSampleRealises }
{}

/// The prover's own log is accepted, with as many steps left or more.
pub fn provers_log_is_accepted()
    ensures { ProversLogIsAccepted }
{}

/// A subject has one log of the prover at most.
pub fn provers_log_is_unique()
    ensures { ProversLogIsUnique }
{}

/// A subject has one defined list of lines at most, with one end: a verdict, a stop, or a text that
/// gets too long.
pub fn defined_log_is_unique()
    ensures { DefinedLogIsUnique }
{}

/// A chain that begins with points below a number eliminates such points alone, and ends with such
/// points alone.
pub fn chains_name_no_later()
    ensures { ChainsNameNoLater }
{}

/// An accepted log leaves no more steps than were given.
pub fn charges_are_spent()
    ensures { ChargesAreSpent }
{}

/// After a cut by the factor of a polynomial no cut is due.
pub fn none_is_due_after_cut()
    ensures { NoneIsDueAfterCut }
{}

/// The walk of one line after another takes the steps of chains.
pub fn steps_agree()
    ensures { StepsAgree }
{}

/// Accepted logs, and those of the prover, are what is walked by their rules.
pub fn logs_are_walked()
    ensures { LogsAreWalked }
{}

/// What is walked begins an accepted log, or the prover's, and stands at a place in it until it is
/// over.
pub fn walks_are_beginnings()
    ensures { WalksAreBeginnings }
{}

/// The prover's rules leave one walk.
pub fn provers_walk_is_unique()
    ensures { ProversWalkIsUnique }
{}
