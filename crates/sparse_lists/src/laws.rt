//! What is proved of lists of keys with amounts, at natural numbers. The functions do nothing: what
//! each says is its contract.

ghost use Rattle.sparse_lists.specs.Laws.{AppendedListsAddUp, CanonicalListIsTheOnlyOne};

/// The canonical list of a list is the only one whose keys rise, which has no zero, and which has
/// the list's amount at each key.
pub fn canonical_list_is_the_only_one()
    ensures { CanonicalListIsTheOnlyOne }
{}

/// The canonical list of two lists one after the other has the sum of their amounts at each key.
pub fn appended_lists_add_up()
    ensures { AppendedListsAddUp }
{}
