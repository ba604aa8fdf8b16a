//! What is proved of moves by the lemma table. The functions do nothing: what each says is its
//! contract.

ghost use Rattle.elim_apply.specs.FirstLemmas.{FirstLemmaHasRow};
ghost use Rattle.elim_apply.specs.LemmaTable.{LemmaTableIsSound};
ghost use Rattle.elim_apply.specs.Multiples.{MoveKeepsValue, TableDenominatorsAgree};
ghost use Rattle.geo_logs.specs.Sound.{TermsAreSound};

/// A term is sound, multiplied out.
pub fn terms_are_sound()
    ensures { TermsAreSound }
{}

/// The lemma table is sound as moves use it.
pub fn lemma_table_is_sound()
    ensures { LemmaTableIsSound }
{}

/// A move multiplies the value of a polynomial by a power of a number that is not 0, wherever the
/// step is met that it looks at.
pub fn move_keeps_value()
    ensures { MoveKeepsValue }
{}

/// All rows of a move have one denominator and one charge.
pub fn table_denominators_agree()
    ensures { TableDenominatorsAgree }
{}

/// The first lemma of a ratio is the first one, in the order in which they are tried, by which a
/// move has a row for it.
pub fn first_lemma_has_row()
    ensures { FirstLemmaHasRow }
{}
