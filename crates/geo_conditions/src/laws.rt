//! What is proved of conditions, goals and truth. The functions do nothing: what each says is its
//! contract.

ghost use Rattle.geo_conditions.specs.Laws.{ConditionsAreTerms, ConditionsHaveValues};
ghost use Rattle.geo_conditions.specs.Laws.{GoalTextsTellGoals, GoalsAreTerms, GoalsHaveValues};
ghost use Rattle.geo_conditions.specs.Laws.{ListsAreUnique, ListsExist, LoweredPlacementsMeet};
ghost use Rattle.geo_conditions.specs.Laws.{OneFailureBreaks, PlacementsAreRealised};
ghost use Rattle.geo_conditions.specs.Laws.{PlacementsLower, SameProgramsMeanTheSame};
ghost use Rattle.geo_conditions.specs.Laws.{TermsHaveValuesInTurn, TextsTellConditions};
ghost use Rattle.geo_conditions.specs.Laws.{ValuesFixPlacements, VerdictsExclude};
ghost use Rattle.geo_conditions.specs.Laws.{ZeroConditionsMakeImpossible, ZeroGoalsMakeTrue};

/// A condition's term has a value other than 0 exactly where the condition holds.
pub fn conditions_are_terms()
    ensures { ConditionsAreTerms }
{}

/// Every placement that meets a program extends to one that meets all steps, in which no
/// condition's term is 0.
pub fn placements_lower()
    ensures { PlacementsLower }
{}

/// Every placement that meets all steps, in which no condition's term is 0, extends one that meets
/// the program.
pub fn lowered_placements_meet()
    ensures { LoweredPlacementsMeet }
{}

/// The statement holds exactly where every goal's term has the value 0.
pub fn goals_are_terms()
    ensures { GoalsAreTerms }
{}

/// Where the conditions hold and the ratios' goals are 0, the goals' terms have values.
pub fn goals_have_values()
    ensures { GoalsHaveValues }
{}

/// A condition's term has a value where the conditions before it hold.
pub fn conditions_have_values()
    ensures { ConditionsHaveValues }
{}

/// A program has one list of conditions and one list of goals at most.
pub fn lists_are_unique()
    ensures { ListsAreUnique }
{}

/// Free points and numbers at which no condition's term is 0, command by command, have a placement
/// that meets the program.
pub fn placements_are_realised()
    ensures { PlacementsAreRealised }
{}

/// Two placements with the same values that meet a program are the same.
pub fn values_fix_placements()
    ensures { ValuesFixPlacements }
{}

/// One failure at values breaks the program there.
pub fn one_failure_breaks()
    ensures { OneFailureBreaks }
{}

/// Conditions that a program gives have one text only where they are the same: to compare them is
/// to compare texts.
pub fn texts_tell_conditions()
    ensures { TextsTellConditions }
{}

/// A condition's term has a value wherever the terms of the conditions listed before it are not 0,
/// in every placement.
pub fn terms_have_values_in_turn()
    ensures { TermsHaveValuesInTurn }
{}

/// A program is true where every goal's term is 0 in every placement that meets all steps with no
/// condition's term 0, and some placement meets it.
pub fn zero_goals_make_true()
    ensures { ZeroGoalsMakeTrue }
{}

/// A program is impossible where no placement that meets all steps has no condition's term 0.
pub fn zero_conditions_make_impossible()
    ensures { ZeroConditionsMakeImpossible }
{}

/// A program is at most one of true, broken and impossible.
pub fn verdicts_exclude()
    ensures { VerdictsExclude }
{}

/// Every program has its list of conditions and its list of goals.
pub fn lists_exist()
    ensures { ListsExist }
{}

/// Goals that a program gives have one text only where they are the same: a text that repeats is a
/// goal that repeats.
pub fn goal_texts_tell_goals()
    ensures { GoalTextsTellGoals }
{}

/// Programs that differ in the order of the terms in their stores alone are true, impossible or
/// broken alike, and have the same conditions and goals.
pub fn same_programs_mean_the_same()
    ensures { SameProgramsMeanTheSame }
{}
