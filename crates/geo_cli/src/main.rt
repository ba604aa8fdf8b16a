//! Proves a statement of plane geometry that standard input spells, and writes the log of the
//! proof; or checks a log that standard input gives, or writes it as a proof that a person reads;
//! or proves a generated program; or places or draws the points of a program at given values; or
//! cites the theorem of a log at another figure; or decides a program with its first point at the
//! origin; or writes the relations of its figure, each with its log.
#![tactic(auto)]

use crate::memory::keep_freed_memory;
use crate::run::run;
use geo_base::{ReaderSource, WriterSink};
use proof_printer::Status;
use std::env;
use std::io::ErrorKind;
use std::process::ExitCode;

mod answers;
mod benching;
mod checking;
mod citing;
mod discovering;
mod fixing;
mod judging;
mod memory;
mod numbers;
mod order;
mod placing;
mod printing;
mod proving;
mod reading;
mod refusing;
mod reports;
mod run;
#[cfg(test)]
mod tests;
mod values;

fn main(rt: HostRuntime) -> ExitCode {
    keep_freed_memory(rt.alloc());
    let status = match words_of(&rt) {
        Ok(words) => {
            let mut source = ReaderSource::new(rt.stdin());
            let mut sink = WriterSink::new(rt.stdout());
            run(rt.alloc(), &words, &mut source, &mut sink)
        }
        Err(status) => status,
    };
    ExitCode::from(status.number())
}

// The words after the program's name, or the status to end with where a word is no UTF-8 or memory
// is wanting.
fn words_of(rt: &HostRuntime) -> Result<Vec<String>, Status> {
    match env::args(rt) {
        Ok(words) => words
            .skip(1)
            .collect(rt.alloc())
            .map_err(|_| Status::NoMemory),
        Err(error) if error.kind() == ErrorKind::OutOfMemory => Err(Status::NoMemory),
        Err(_) => Err(Status::Usage),
    }
}
