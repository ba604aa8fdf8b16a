//! What is proved of texts and the programs that they spell. The functions do nothing: what each
//! says is its contract.

ghost use Rattle.geo_program.specs.Laws.{SameProgramsHaveTheSameText, TextSpellsOneProgram};
ghost use Rattle.geo_program.specs.Laws.{WellFormedProgramsAreSpelt};

/// The canonical text of a well-formed program spells it.
pub fn well_formed_programs_are_spelt()
    ensures { WellFormedProgramsAreSpelt }
{}

/// The programs that a text spells are the same.
pub fn text_spells_one_program()
    ensures { TextSpellsOneProgram }
{}

/// Programs that are the same have one canonical text. So all programs that a text spells have it.
pub fn same_programs_have_the_same_text()
    ensures { SameProgramsHaveTheSameText }
{}
