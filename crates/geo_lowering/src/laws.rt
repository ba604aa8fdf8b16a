//! What is proved of lowering. The functions do nothing: what each says is its contract.

ghost use Rattle.geo_lowering.specs.Laws.{FreePointsFixPlacements, LoweredFormsAgree};
ghost use Rattle.geo_lowering.specs.Laws.{LoweredPlacementsMeetCommands, OwnNumbersAreFixed};
ghost use Rattle.geo_lowering.specs.Laws.{PlacementsAreMade, PlacementsExtend, PointsAreCounted};
ghost use Rattle.geo_lowering.specs.Laws.{ProgramsHaveLoweredForms, SameProgramsLowerAlike};

/// Every placement that meets the commands of a program and their conditions extends to one that
/// meets all steps.
pub fn placements_extend()
    ensures { PlacementsExtend }
{}

/// Every placement that meets all steps, its hidden points forgotten, meets the commands.
pub fn lowered_placements_meet_commands()
    ensures { LoweredPlacementsMeetCommands }
{}

/// The free points and the numbers fix a placement that meets a program.
pub fn free_points_fix_placements()
    ensures { FreePointsFixPlacements }
{}

/// Where the conditions that do not name a command's point hold in all that is made before it,
/// there is a placement with the given free points and numbers that meets all steps.
pub fn placements_are_made()
    ensures { PlacementsAreMade }
{}

/// The points of a command are as many as its form says, hidden ones counted.
pub fn points_are_counted()
    ensures { PointsAreCounted }
{}

/// The numbers of `online` and `oncircle` are fixed by the points.
pub fn own_numbers_are_fixed()
    ensures { OwnNumbersAreFixed }
{}

/// Every well-formed program has a lowered form, where its canonical text is as short as that of a
/// `Program`.
pub fn programs_have_lowered_forms()
    ensures { ProgramsHaveLoweredForms }
{}

/// Two lowered forms of a program have the same places and, up to the order of the terms in their
/// stores, the same steps.
pub fn lowered_forms_agree()
    ensures { LoweredFormsAgree }
{}

/// Programs that differ in the order of the terms in their stores alone have the same lowered
/// forms.
pub fn same_programs_lower_alike()
    ensures { SameProgramsLowerAlike }
{}
