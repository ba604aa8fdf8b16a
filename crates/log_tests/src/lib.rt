//! Tests of moves, of logs and of what is done with them. There is nothing here but tests, and they
//! use public calls alone.
#![tactic(auto)]

#[cfg(test)]
mod applied_moves;
#[cfg(test)]
mod checking;
#[cfg(test)]
mod citing;
#[cfg(test)]
mod lines;
#[cfg(test)]
mod logs;
#[cfg(test)]
mod next_lines;
#[cfg(test)]
mod printing;
#[cfg(test)]
mod proving;
#[cfg(test)]
mod searching;
#[cfg(test)]
mod workloads;
