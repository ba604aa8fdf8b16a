//! What is proved of fractions in lowest terms. The functions do nothing: what each says is its
//! contract.

ghost use Rattle.frac_laws.specs.Lowest.{LowestTermsAreUnique};

/// A number has one fraction in lowest terms with a positive denominator, and every other fraction
/// of the same number has a numerator and a denominator that are as large or larger.
pub fn lowest_terms_are_unique()
    ensures { LowestTermsAreUnique }
{}
