//! What is proved of spelling and of refusals. The functions do nothing: what each says is its
//! contract.

ghost use Rattle.geo_parser.specs.Laws.{PrintedProgramsAreRead, RefusalsAreUnique};
ghost use Rattle.geo_parser.specs.Laws.{SpeltTextsAreNotRefused, TextsSpellOrAreRefused};

/// A text that spells a program has no token that may not stand at its place.
pub fn spelt_texts_are_not_refused()
    ensures { SpeltTextsAreNotRefused }
{}

/// Each text spells a program, or it has a first token that may not stand at its place.
pub fn texts_spell_or_are_refused()
    ensures { TextsSpellOrAreRefused }
{}

/// A text has one first refusal at most.
pub fn refusals_are_unique()
    ensures { RefusalsAreUnique }
{}

/// The canonical text of a program is that of no other program, and has no token that may not stand
/// at its place. So `parse` answers the program, or want of memory, wherever it is given that text.
pub fn printed_programs_are_read()
    ensures { PrintedProgramsAreRead }
{}
