//! Rows as they are written, before they are multiplied out.

ghost use Rattle.std.specs.Prelude.{◌≡◌, ◌≤◌, ◌+◌, ◌*◌, ◌^◌, ◌<◌, ℕ, max, Contains, IfOk};
ghost use Rattle.fraction_poly.specs.Inner.Drafts.{AllFit, AllLeaves, IsBoundedNumber, IsPartFor};
ghost use Rattle.fraction_poly.specs.Inner.Drafts.{by_number, combined_form, combined_piece};
ghost use Rattle.fraction_poly.specs.Inner.Drafts.{drafted_piece, form_of, no_terms, piece_bounds};
ghost use Rattle.geo_poly.specs.declared.rows.Piece.{Piece};
ghost use Rattle.geo_poly.specs.Rings.{Grows};
ghost use Rattle.fraction_poly.specs.declared.drafts.Number.{Number};
ghost use Rattle.fraction_poly.specs.declared.drafts.Number.TheVariants.{First, Second};
ghost use Rattle.fraction_poly.specs.Forms.{◌⊞◌, ◌⊟◌, ◌⊠◌, opposite, piece_of};
ghost use Rattle.fraction_poly.specs.Measures.{capped, capped_number, numbers_of};
ghost use Rattle.geo_terms.specs.Trees.{Tree};

use crate::numbers::Numbers;
use crate::operations::Operation;
use crate::parts::{Part, combined, copied_part, integer, opposite, quantity, variable};
use crate::step_numbers::StepNumber;
use geo_points::{NoMemory, PointId, TermId};
use geo_poly::{Piece, Ring, Var, canon_p, canon_r, canon_s};
use std::alloc::Global;

/// A polynomial as a row writes it. It is not multiplied out yet.
#[derive(Drop)]
#[cycle(draft)]
pub enum Draft {
    /// A whole number.
    Integer(u32),
    /// The signed area of three points.
    Area(PointId, PointId, PointId),
    /// The Pythagoras difference of three points.
    Pythagoras(PointId, PointId, PointId),
    /// The ratio AB / CD.
    Ratio(PointId, PointId, PointId, PointId),
    /// The first coordinate of a point.
    Abscissa(PointId),
    /// The second coordinate of a point.
    Ordinate(PointId),
    /// The numerator of a number of the step.
    Numerator(Number),
    /// The denominator of a number of the step.
    Denominator(Number),
    /// Two drafts put together.
    Combined(Box<Combination>),
    /// The other sign.
    Opposite(Box<Draft>),
}

/// One of the numbers of a step, which has two at most.
#[derive(Clone, Copy, Debug, PartialEq, Eq)]
pub enum Number {
    /// The first, r.
    First,
    /// The second, s.
    Second,
}

/// Two drafts, and how they are put together.
#[derive(Drop)]
#[cycle(draft)]
pub struct Combination {
    /// What is made of both.
    pub operation: Operation,
    /// The first.
    pub left: Draft,
    /// The second.
    pub right: Draft,
}

/// What a draft multiplies out to is bounded so. A number past `2^128 - 1` is given as `2^128 - 1`.
#[derive(Clone, Copy, Debug, PartialEq, Eq)]
pub(crate) struct Bounds {
    /// The weight: at least 1 and at least the norm.
    pub weight: u128,
    /// The count: at least the number of monomials, and at most the weight.
    pub count: u128,
    /// The degree: at least the total degree.
    pub degree: u128,
}

/// A row as it is written.
#[derive(Drop)]
pub struct RowDraft {
    /// The power of the denominator.
    pub power: u32,
    /// The numerator.
    pub num: Draft,
    /// The denominator.
    pub den: Draft,
    /// The terms of the step's numbers that the row uses.
    pub terms: StepTerms,
}

/// The terms of the numbers of a step.
#[derive(Clone, Copy, Debug, PartialEq, Eq)]
pub struct StepTerms {
    /// The term of the first number, where there is one.
    pub first: Option<TermId>,
    /// The term of the second number, where there is one.
    pub second: Option<TermId>,
}

impl StepTerms {
    /// No number.
    pub fn none() -> StepTerms
        ensures { result ≡ no_terms }
    {
        StepTerms {
            first: None,
            second: None,
        }
    }
}

impl Number {
    /// What belongs to the number, where something belongs to each.
    pub(crate) fn of<'a, T>(self, first: &'a T, second: &'a T) -> &'a T
        ensures { result.now ≡ by_number first.now second.now self }
    {
        match self {
            Number::First => first,
            Number::Second => second,
        }
    }
}

impl Draft {
    /// The sum.
    pub fn plus(self, alloc: Global, other: Draft) -> Result<Draft, NoMemory>
        ensures { IfOk result (λ d. (e : Number → Tree) → form_of e d ≡ form_of e self ⊞ form_of e other) }
    {
        self.combined(alloc, Operation::Sum, other)
    }

    /// The difference.
    pub fn minus(self, alloc: Global, other: Draft) -> Result<Draft, NoMemory>
        ensures { IfOk result (λ d. (e : Number → Tree) → form_of e d ≡ form_of e self ⊟ form_of e other) }
    {
        self.combined(alloc, Operation::Difference, other)
    }

    /// The product.
    pub fn times(self, alloc: Global, other: Draft) -> Result<Draft, NoMemory>
        ensures { IfOk result (λ d. (e : Number → Tree) → form_of e d ≡ form_of e self ⊠ form_of e other) }
    {
        self.combined(alloc, Operation::Product, other)
    }

    /// Both, put together.
    fn combined(self, alloc: Global, operation: Operation, right: Draft) -> Result<Draft, NoMemory>
        ensures { IfOk result (λ d. (e : Number → Tree)
            → form_of e d ≡ combined_form operation (form_of e self) (form_of e right)) }
    {
        let both = Combination {
            operation,
            left: self,
            right,
        };
        Ok(Draft::Combined(Box::new(alloc, both)?))
    }

    /// The other sign.
    pub fn opposite(self, alloc: Global) -> Result<Draft, NoMemory>
        ensures { IfOk result (λ d. (e : Number → Tree) → form_of e d ≡ opposite (form_of e self)) }
    {
        Ok(Draft::Opposite(Box::new(alloc, self)?))
    }

    /// The numbers of what the draft multiplies out to, where the step's numbers have these.
    pub(crate) fn bounds(&self, first: &Numbers, second: &Numbers) -> Bounds
        ensures { (e : Number → Tree) → first.now ≡ capped (numbers_of (e First))
            → second.now ≡ capped (numbers_of (e Second))
            → result ≡ piece_bounds (piece_of (form_of e self.now)) }
    {
        match self {
            Draft::Integer(n) => Bounds::new(u128::from(*n).max(1), 1, 0),
            Draft::Area(..) | Draft::Pythagoras(..) | Draft::Ratio(..) => Bounds::new(1, 1, 1),
            Draft::Abscissa(_) | Draft::Ordinate(_) => Bounds::new(1, 1, 1),
            Draft::Numerator(k) => k.of(first, second).of_numerator(),
            Draft::Denominator(k) => k.of(first, second).of_denominator(),
            Draft::Combined(both) => {
                let left = both.left.bounds(first, second);
                let right = both.right.bounds(first, second);
                left.combined(both.operation, right)
            }
            Draft::Opposite(draft) => draft.bounds(first, second),
        }
    }

    /// What the draft multiplies out to, where the step's numbers are these.
    pub(crate) fn piece(
        &self,
        alloc: Global,
        first: &StepNumber,
        second: &StepNumber,
    ) -> Result<Piece, NoMemory>
        requires first { IsBoundedNumber first.now }
        requires second { IsBoundedNumber second.now }
        requires fits { AllFit (by_number first.now second.now) self.now }
        ensures { IfOk result (λ f. f ≡ drafted_piece (by_number first.now second.now) self.now) }
    {
        match self {
            Draft::Numerator(k) => same_piece(alloc, &k.of(first, second).num),
            Draft::Denominator(k) => same_piece(alloc, &k.of(first, second).den),
            _ => match self.simple(first, second) {
                Some(simple) => simple.into_piece(alloc),
                None => self.made_piece(alloc, first, second),
            },
        }
    }

    /// What the draft multiplies out to, made in a ring.
    fn made_piece(
        &self,
        alloc: Global,
        first: &StepNumber,
        second: &StepNumber,
    ) -> Result<Piece, NoMemory>
        requires first { IsBoundedNumber first.now }
        requires second { IsBoundedNumber second.now }
        requires fits { AllFit (by_number first.now second.now) self.now }
        ensures { IfOk result (λ f. f ≡ drafted_piece (by_number first.now second.now) self.now) }
    {
        let variables = self.variables(alloc, first, second)?;
        let mut ring = Ring::new(alloc, variables)?;
        let part = self.part(alloc, &mut ring, first, second)?;
        part.into_piece(alloc, ring)
    }

    /// What the draft multiplies out to, in a ring that has its variables.
    fn part(
        &self,
        alloc: Global,
        ring: &mut Ring,
        first: &StepNumber,
        second: &StepNumber,
    ) -> Result<Part, NoMemory>
        requires first { IsBoundedNumber first.now }
        requires second { IsBoundedNumber second.now }
        requires fits { AllFit (by_number first.now second.now) self.now }
        requires known { AllLeaves (Contains ring.old.vars) (by_number first.now second.now)
            self.now }
        ensures part { IfOk result
            (IsPartFor ring.new (drafted_piece (by_number first.now second.now) self.now)) }
        ensures grows { Grows ring.old ring.new }
    {
        match self {
            Draft::Integer(n) => integer(alloc, ring, *n),
            Draft::Area(a, b, c) => quantity(alloc, ring, canon_s(*a, *b, *c)),
            Draft::Pythagoras(a, b, c) => quantity(alloc, ring, canon_p(*a, *b, *c)),
            Draft::Ratio(a, b, c, d) => quantity(alloc, ring, canon_r(*a, *b, *c, *d)),
            Draft::Abscissa(a) => variable(alloc, ring, Var::X(*a)),
            Draft::Ordinate(a) => variable(alloc, ring, Var::Y(*a)),
            Draft::Numerator(k) => copied_part(alloc, ring, &k.of(first, second).num),
            Draft::Denominator(k) => copied_part(alloc, ring, &k.of(first, second).den),
            Draft::Combined(both) => {
                let left = both.left.part(alloc, ring, first, second)?;
                let right = both.right.part(alloc, ring, first, second)?;
                combined(alloc, ring, both.operation, &left, &right)
            }
            Draft::Opposite(draft) => {
                let part = draft.part(alloc, ring, first, second)?;
                opposite(alloc, ring, &part)
            }
        }
    }
}

/// The same piece once more.
fn same_piece(alloc: Global, piece: &Piece) -> Result<Piece, NoMemory>
    ensures { IfOk result (λ f. f ≡ piece.now) }
{
    Ok(Piece {
        poly: piece.poly.copy(alloc)?,
        weight: piece.weight,
        count: piece.count,
        degree: piece.degree,
    })
}

impl Numbers {
    /// The bounds of the numerator.
    fn of_numerator(&self) -> Bounds
        ensures weight { result.weight ≡ self.now.wn }
        ensures count { result.count ≡ self.now.kn }
        ensures degree { result.degree ≡ self.now.gn }
    {
        Bounds::new(self.wn, self.kn, self.gn)
    }

    /// The bounds of the denominator.
    fn of_denominator(&self) -> Bounds
        ensures weight { result.weight ≡ self.now.wd }
        ensures count { result.count ≡ self.now.kd }
        ensures degree { result.degree ≡ self.now.gd }
    {
        Bounds::new(self.wd, self.kd, self.gd)
    }
}

impl Bounds {
    /// These three.
    fn new(weight: u128, count: u128, degree: u128) -> Bounds
        ensures weight { result.weight ≡ weight }
        ensures count { result.count ≡ count }
        ensures degree { result.degree ≡ degree }
    {
        Bounds {
            weight,
            count,
            degree,
        }
    }

    /// Those of what is made of both.
    fn combined(self, operation: Operation, other: Bounds) -> Bounds
        ensures { (f g : Piece) → self ≡ piece_bounds f → other ≡ piece_bounds g
            → result ≡ piece_bounds (combined_piece operation f g) }
    {
        match operation {
            Operation::Sum | Operation::Difference => self.plus(other),
            Operation::Product => self.times(other),
        }
    }

    /// Those of a sum and of a difference.
    fn plus(self, other: Bounds) -> Bounds
        ensures weight { result.weight ≡ capped_number (self.weight + other.weight) }
        ensures count { result.count ≡ capped_number (self.count + other.count) }
        ensures degree { result.degree ≡ max self.degree other.degree }
    {
        Bounds {
            weight: self.weight.saturating_add(other.weight),
            count: self.count.saturating_add(other.count),
            degree: self.degree.max(other.degree),
        }
    }

    /// Those of a product.
    fn times(self, other: Bounds) -> Bounds
        ensures weight { result.weight ≡ capped_number (self.weight * other.weight) }
        ensures count { result.count ≡ capped_number (self.count * other.count) }
        ensures degree { result.degree ≡ capped_number (self.degree + other.degree) }
    {
        Bounds {
            weight: self.weight.saturating_mul(other.weight),
            count: self.count.saturating_mul(other.count),
            degree: self.degree.saturating_add(other.degree),
        }
    }
}
