//! What is proved of stores and their trees. The functions do nothing: what each says is its
//! contract.

ghost use Rattle.geo_terms.specs.Laws.{EqualTreesHaveEqualIndices, NodesUnfold, OtherTreesStay};

/// The tree at an index is that of its node over the trees of the children.
pub fn nodes_unfold()
    ensures { NodesUnfold }
{}

/// A longer store has the same trees at the indices of the shorter one.
pub fn other_trees_stay()
    ensures { OtherTreesStay }
{}

/// In a store, terms that unfold to the same tree have the same index.
pub fn equal_trees_have_equal_indices()
    ensures { EqualTreesHaveEqualIndices }
{}
