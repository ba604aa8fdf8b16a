//! What is proved of terms multiplied out. The functions do nothing: what each says is its
//! contract.

ghost use Rattle.fraction_poly.specs.Laws.{FormsAreSorted, MultipliedOutHasTheValue};
ghost use Rattle.fraction_poly.specs.Laws.{MultipliedOutIsSorted, NumbersAreBounds};

/// Wherever a term has a value, its denominator is not 0 and the value is numerator over
/// denominator.
pub fn multiplied_out_has_the_value()
    ensures { MultipliedOutHasTheValue }
{}

/// The numbers of a term bound the norms, the numbers of monomials and the degrees of its numerator
/// and denominator.
pub fn numbers_are_bounds()
    ensures { NumbersAreBounds }
{}

/// The variables of a term that is multiplied out are sorted.
pub fn multiplied_out_is_sorted()
    ensures { MultipliedOutIsSorted }
{}

/// The variables of a form that is multiplied out are sorted.
pub fn forms_are_sorted()
    ensures { FormsAreSorted }
{}
