//! Tests of stores of monomials, arenas of chains, runs of terms, greatest common divisors, polynomials,
//! what is made of them, and samples. There is nothing here but tests, and they use public calls alone.
#![tactic(auto)]

#[cfg(test)]
mod arenas;
#[cfg(test)]
mod factors;
#[cfg(test)]
mod fractions;
#[cfg(test)]
mod numbers;
#[cfg(test)]
mod polynomials;
#[cfg(test)]
mod runs;
#[cfg(test)]
mod samples;
#[cfg(test)]
mod spelling;
#[cfg(test)]
mod stores;
