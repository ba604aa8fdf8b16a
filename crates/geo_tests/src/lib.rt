//! Tests of bytes, lines, tokens, terms and the reading of programs, and tests that cross crates: of the
//! calls that make a problem of a program, and of the moves of a chain, beside what a plain reference
//! makes of the same programs. There is nothing here but tests.
#![tactic(auto)]

#[cfg(test)]
mod bytes;
#[cfg(test)]
mod chains;
#[cfg(test)]
mod descriptions;
#[cfg(test)]
mod examples;
#[cfg(test)]
mod lines;
#[cfg(test)]
mod move_degrees;
#[cfg(test)]
mod move_places;
#[cfg(test)]
mod move_texts;
#[cfg(test)]
mod moves;
#[cfg(test)]
mod moves_table;
#[cfg(test)]
mod parsing;
#[cfg(test)]
mod places;
#[cfg(test)]
mod problems;
#[cfg(test)]
mod ratio_moves_table;
#[cfg(test)]
mod starts;
#[cfg(test)]
mod terms;
#[cfg(test)]
mod tokens;
#[cfg(test)]
mod weight_moves_table;
