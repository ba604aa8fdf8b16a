//! What is proved of the solver, of the whole numbers and of fractions. The functions do nothing:
//! what each says is its contract.

ghost use Rattle.ring_laws.specs.FractionLaws.{FractionsAreAField, SameIsACongruence};
ghost use Rattle.ring_laws.specs.Laws.{CombinationIsSound, SolverIsSound, WholeNumbersAreARing};

/// Expressions that the solver finds equal come to the same number, whatever whole numbers their
/// variables stand for.
pub fn solver_is_sound()
    ensures { SolverIsSound }
{}

/// The same with equations that are given, each with the factor by which it is used: the
/// expressions come to the same number wherever the equations hold.
pub fn combination_is_sound()
    ensures { CombinationIsSound }
{}

/// Sums and products of whole numbers are commutative and associative, with zero, one and
/// opposites, and products distribute over sums.
pub fn whole_numbers_are_a_ring()
    ensures { WholeNumbersAreARing }
{}

/// Being the same fraction, by cross multiplication, is an equivalence that sums, products and
/// opposites respect.
pub fn same_is_a_congruence()
    ensures { SameIsACongruence }
{}

/// Up to being the same, fractions have the laws of a field.
pub fn fractions_are_a_field()
    ensures { FractionsAreAField }
{}
