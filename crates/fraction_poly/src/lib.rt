//! Terms multiplied out: a term becomes a numerator and a denominator, two polynomials over the
//! quantities of points, and numbers that bound both are told before any product is made.
#![tactic(auto)]

mod cutting;
mod draft_variables;
mod drafts;
mod fractions;
mod known_numbers;
pub mod laws;
mod linear;
mod measures;
mod multiplying;
mod numbers;
mod numerators;
mod operations;
mod parts;
mod reaching;
mod simple_drafts;
mod sorted_variables;
mod step_numbers;
mod store_numbers;
mod table;
mod term_variables;
mod visits;

pub use drafts::{Draft, Number, RowDraft, StepTerms};
pub use known_numbers::KnownNumbers;
pub use linear::{
    Linear, along_numerator, both_denominators, crossing_numerator, first_weight, foot_numerator,
    origin_weight, second_weight, step_draft, weights_numerator,
};
pub use measures::measure;
pub use multiplying::{multiply_out, multiply_out_uncounted};
pub use numbers::Numbers;
pub use store_numbers::StoreNumbers;
pub use table::{RowNumbers, Rows};
