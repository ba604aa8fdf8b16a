//! Laws of the definitions that the contracts cite; the functions do nothing.

ghost use Rattle.geo_poly.specs.Canonical.{CanonicalAreaKeepsValue, CanonicalDifferenceKeepsValue};
ghost use Rattle.geo_poly.specs.Canonical.{CanonicalRatioKeepsValue};
ghost use Rattle.geo_poly.specs.Factors.{FactorDivides, FactorIsUnique};
ghost use Rattle.geo_poly.specs.KeptVariables.{SortedVariablesAreKept, VariablesAreKept};
ghost use Rattle.geo_poly.specs.Laws.{OrderIsByExponents, OrderTellsVariables};
ghost use Rattle.geo_poly.specs.Laws.{PolynomialHasCoefficients, ProductAddsExponents};
ghost use Rattle.geo_poly.specs.Laws.{SumAddsCoefficients};
ghost use Rattle.geo_poly.specs.ReplacementLaws.{ReplacementHasTheValue};
ghost use Rattle.geo_poly.specs.SortedVariables.{CanonicalFormsAreSorted};
ghost use Rattle.geo_poly.specs.SortedVariables.{SortedVariablesAreCanonical};
ghost use Rattle.geo_poly.specs.Specialise.{SmallNumbersKeepTheNorm, SomeNumberKeepsAll};
ghost use Rattle.geo_poly.specs.Specialise.{SpecialisedIsSmaller, SpecialisedKeepsValue};
ghost use Rattle.geo_poly.specs.Specialise.{ZerosAreFew};

/// Variables that compare as equal are the same, so `==` tells them apart.
pub fn order_tells_variables()
    ensures { OrderTellsVariables }
{}

/// A list of terms has exactly one polynomial with its coefficients.
pub fn polynomial_has_coefficients()
    ensures { PolynomialHasCoefficients }
{}

/// The sum has the sums of the coefficients.
pub fn sum_adds_coefficients()
    ensures { SumAddsCoefficients }
{}

/// The product of monomials has the sums of the exponents.
pub fn product_adds_exponents()
    ensures { ProductAddsExponents }
{}

/// Of two monomials the earlier has the greater exponent at the first variable in which they
/// differ.
pub fn order_is_by_exponents()
    ensures { OrderIsByExponents }
{}

/// A polynomial has one factor at most.
pub fn factor_is_unique()
    ensures { FactorIsUnique }
{}

/// The factor of a polynomial divides it.
pub fn factor_divides()
    ensures { FactorDivides }
{}

/// The canonical form of a signed area has its value.
pub fn canonical_area_keeps_value()
    ensures { CanonicalAreaKeepsValue }
{}

/// The canonical form of a Pythagoras difference has its value.
pub fn canonical_difference_keeps_value()
    ensures { CanonicalDifferenceKeepsValue }
{}

/// The canonical form of a ratio has its value wherever the ratio is defined.
pub fn canonical_ratio_keeps_value()
    ensures { CanonicalRatioKeepsValue }
{}

/// With a number for a variable, a polynomial keeps its value wherever the variable has that number
/// as its value.
pub fn specialised_keeps_value()
    ensures { SpecialisedKeepsValue }
{}

/// With a number for a variable, a polynomial lacks the variable, and neither its degrees nor the
/// number of its monomials grow.
pub fn specialised_is_smaller()
    ensures { SpecialisedIsSmaller }
{}

/// With 0, 1 or -1 for a variable, the weight is at most the norm.
pub fn small_numbers_keep_the_norm()
    ensures { SmallNumbersKeepTheNorm }
{}

/// A polynomial that is not zero becomes zero at no more numbers than its degree in the variable.
pub fn zeros_are_few()
    ensures { ZerosAreFew }
{}

/// For polynomials none of which is zero, some number from 0 to the sum of their degrees in a
/// variable makes none of them zero.
pub fn some_number_keeps_all()
    ensures { SomeNumberKeepsAll }
{}

/// The canonical form of a ratio, an area or a Pythagoras difference is a sign times a sorted
/// variable, or one of the numbers -1, 0 and 1.
pub fn canonical_forms_are_sorted()
    ensures { CanonicalFormsAreSorted }
{}

/// A sorted variable is its own canonical form, with the sign 1. So each quantity has one name.
pub fn sorted_variables_are_canonical()
    ensures { SortedVariablesAreCanonical }
{}

/// Sums, differences, products, replacements, quotients and specialisations have no variable but
/// those of the polynomials that they are made of.
pub fn variables_are_kept()
    ensures { VariablesAreKept }
{}

/// Where all variables of some polynomials are sorted, so are those of what is made of them.
pub fn sorted_variables_are_kept()
    ensures { SortedVariablesAreKept }
{}

/// A replacement multiplies the value by the denominator, to the power of the term that calls for
/// most.
pub fn replacement_has_the_value()
    ensures { ReplacementHasTheValue }
{}
