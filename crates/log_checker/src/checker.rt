//! A log that is judged line by line.

use crate::accepted::Accepted;
use crate::errors::CheckError;
use crate::judging::{answer_at_end, refusal_of_rest, take_line};
use crate::state::State;
use geo_points::NoMemory;
use std::alloc::Global;
use std::marker::Model;

/// Judges a log line by line. It keeps no earlier line, but the program and one polynomial of the
/// chain in work.
#[derive(Drop)]
pub struct Checker {
    alloc: Global,
    steps: u64,
    taken: u64,
    lines: u64,
    state: State,
}

impl Model for Checker {
    ghost use Rattle.log_checker.specs.Checkers.{CheckerValue, IsSound};

    ghost Value = { CheckerValue };

    ghost view = { λ c.
        record { steps = c.steps; taken = c.taken; lines = c.lines; state = c.state } };

    ghost invariant = { λ c.
        IsSound (record { steps = c.steps; taken = c.taken; lines = c.lines; state = c.state }) };
}

impl Checker {
    ghost use Rattle.std.specs.Prelude.{◌≡◌, ◌+◌, ◌≤◌, ◌++◌, ◌∷◌, [], ℕ, List, IfErr, IfOk, OnErr};
    ghost use Rattle.std.specs.Prelude.{OnOk, length};
    ghost use Rattle.log_checker.specs.Checked.{IsAnswer, StopsAt, TellsStop};
    ghost use Rattle.log_checker.specs.Checkers.{StandsFor, error_of, with_feeds};
    ghost use Rattle.log_checker.specs.Judged.{Refuses};
    ghost use Rattle.proof_log.specs.Writable.{HasNoLineFeed};

    /// A checker that has taken no line. The charges of the log may add up to so many steps.
    pub fn new(alloc: Global, steps: u64) -> Result<Checker, NoMemory>
        ensures empty { IfOk result (λ c. StandsFor c []) }
        ensures steps { IfOk result (λ c. c.steps ≡ steps) }
        ensures taken { IfOk result (λ c. c.taken ≡ 0) }
    {
        Ok(Checker {
            alloc,
            steps,
            taken: 0,
            lines: 0,
            state: State::Empty,
        })
    }

    /// Takes the next line, which is given without its line feed. After an error every later call
    /// answers the same error.
    pub fn take(&mut self, line: &[u8]) -> Result<(), CheckError>
        requires one_line { HasNoLineFeed line.now }
        requires room { self.old.taken + length line.now + 1 ≤ 67108864 }
        ensures goes { (pieces : List (List ℕ)) → StandsFor self.old pieces
            → OnOk result (StandsFor self.new (pieces ++ line.now ∷ [])) }
        ensures refused { (pieces : List (List ℕ)) → StandsFor self.old pieces
            → IfErr result (TellsStop (StopsAt self.old.steps (pieces ++ line.now ∷ []))) }

        // After an error it answers nothing else.
        ensures failed { (e : CheckError) → error_of self.old ≡ Some e
            → (result ≡ Err e) × (self.new ≡ self.old) }
        ensures fails { IfErr result (λ e. error_of self.new ≡ Some e) }

        ensures taken { OnOk result (self.new.taken ≡ self.old.taken + length line.now + 1) }
        ensures kept { OnErr result (self.new.taken ≡ self.old.taken) }
        ensures steps { self.new.steps ≡ self.old.steps }
    {
        if let Some(error) = self.state.failure() {
            return Err(error);
        }
        take_line(
            self.alloc,
            self.steps,
            self.lines + 1,
            &mut self.state,
            line,
        )?;
        self.lines += 1;
        self.taken += line.len() as u64 + 1;
        Ok(())
    }

    /// What is to be answered of the lines that were taken, where these bytes, which have no line
    /// feed, follow the last of them.
    pub fn finish(self, rest: &[u8]) -> Result<Accepted, CheckError>
        requires one_line { HasNoLineFeed rest.now }
        requires room { self.taken + length rest.now ≤ 67108864 }
        ensures accepted { (pieces : List (List ℕ)) → StandsFor self pieces
            → IfOk result (IsAnswer (with_feeds pieces ++ rest.now) self.steps) }
        ensures refused { (pieces : List (List ℕ)) → StandsFor self pieces
            → IfErr result (TellsStop (Refuses (with_feeds pieces ++ rest.now) self.steps)) }
        ensures failed { (e : CheckError) → error_of self ≡ Some e → result ≡ Err e }
    {
        let Checker {
            alloc,
            steps,
            taken: _,
            lines,
            state,
        } = self;
        if rest.is_empty() {
            answer_at_end(state, steps, lines)
        } else {
            Err(refusal_of_rest(alloc, steps, lines + 1, state))
        }
    }
}
