//! One line more, and the end of a log.

ghost use Rattle.std.specs.Prelude.{◌≡◌, ◌≢◌, ℕ, List, [], ◌∷◌, ◌++◌, ◌+◌, ◌≤◌, suc, IfErr, IfOk};
ghost use Rattle.std.specs.Prelude.{IfSome, None, OnOk, Some, length};
ghost use Rattle.geo_program.specs.CanonicalText.{canonical_text};
ghost use Rattle.geo_program.specs.Programs.{source_of};
ghost use Rattle.log_checker.specs.Checked.{TellsStop};
ghost use Rattle.log_checker.specs.Checkers.{IsAtWork, IsLeftBy};
ghost use Rattle.log_checker.specs.Inner.Judged.{BeginsWith, GoesOnWith, IsAnswerOf};
ghost use Rattle.log_checker.specs.Inner.Judged.{IsFirstRefused, IsNextPiece, IsNextState};
ghost use Rattle.log_checker.specs.Inner.Judged.{IsNoProgram};
ghost use Rattle.log_checker.specs.Inner.Judged.{IsReachedState, IsRefusedWork, Leaves};
ghost use Rattle.log_checker.specs.Inner.Judged.{StopsAtPiece, StopsNext, StopsThere};
ghost use Rattle.log_checker.specs.Inner.Lines.{GoesOn};
ghost use Rattle.log_checker.specs.Judged.{IsRead};
ghost use Rattle.proof_log.specs.Writable.{HasNoLineFeed, IsWritable};
ghost use Rattle.proof_log.specs.declared.log.Line.{Line};
ghost use Rattle.log_checker.specs.declared.errors.CheckError.{CheckError};

use crate::accepted::Accepted;
use crate::due::Due;
use crate::errors::CheckError;
use crate::line_of::line_of;
use crate::passing::state_passes;
use crate::program_lines::push_line;
use crate::reasons::Reason;
use crate::state::State;
use crate::stops::Stop;
use crate::versions::{number_of, version_of};
use crate::work::{Work, begun_work, work_after};
use geo_lowering::Version;
use proof_log::Line;
use std::alloc::Global;
use std::mem;

/// Takes the line of this number, which has these bytes: the state becomes the one behind it, or it has failed. It
/// stays where it is for a line that is judged by its text.
pub(crate) fn take_line(
    alloc: Global,
    steps: u64,
    number: u64,
    state: &mut State,
    line: &[u8],
) -> Result<(), CheckError>
    requires reached { IsReachedState steps state.old }
    requires one_line { HasNoLineFeed line.now }
    ensures goes { (lines : List Line) → Leaves steps lines state.old
        → OnOk result (IsNextPiece steps lines line.now state.new) }
    ensures refused { (lines : List Line) → Leaves steps lines state.old
        → number ≡ suc (length lines)
        → IfErr result (TellsStop (StopsAtPiece steps lines line.now)) }
    ensures fails { IfErr result (λ e. state.new ≡ State.Failed e) }
{
    match state_passes(alloc, state, line) {
        Ok(true) => Ok(()),
        Ok(false) => take_read_line(alloc, steps, number, state, line),
        Err(_) => {
            fail(state, CheckError::NoMemory);
            Err(CheckError::NoMemory)
        }
    }
}

/// The state has failed. It stands alone, since a function pays for its largest value at each call, and a state is one.
fn fail(state: &mut State, error: CheckError)
    ensures { state.new ≡ State.Failed error }
{
    *state = State::Failed(error);
}

/// The same of a line that is read.
fn take_read_line(
    alloc: Global,
    steps: u64,
    number: u64,
    state: &mut State,
    line: &[u8],
) -> Result<(), CheckError>
    requires { IsReachedState steps state.old }
    ensures goes { (lines : List Line) → Leaves steps lines state.old
        → OnOk result (IsNextPiece steps lines line.now state.new) }
    ensures refused { (lines : List Line) → Leaves steps lines state.old
        → number ≡ suc (length lines)
        → IfErr result (TellsStop (StopsAtPiece steps lines line.now)) }
    ensures fails { IfErr result (λ e. state.new ≡ State.Failed e) }
{
    let before = mem::replace(state, State::Failed(CheckError::NoMemory));
    match judged(alloc, steps, number, before, line) {
        Ok(after) => {
            *state = after;
            Ok(())
        }
        Err(error) => {
            fail(state, error);
            Err(error)
        }
    }
}

/// The state behind the line of this number, which has these bytes.
fn judged(
    alloc: Global,
    steps: u64,
    number: u64,
    state: State,
    line: &[u8],
) -> Result<State, CheckError>
    requires { IsReachedState steps state }
    ensures goes { (lines : List Line) → Leaves steps lines state
        → IfOk result (IsNextPiece steps lines line.now) }
    ensures refused { (lines : List Line) → Leaves steps lines state → number ≡ suc (length lines)
        → IfErr result (TellsStop (StopsAtPiece steps lines line.now)) }
{
    let read = line_of(alloc, line)?;
    state_after(alloc, steps, number, state, read)
}

/// The state behind what is read as the line of this number.
fn state_after(
    alloc: Global,
    steps: u64,
    number: u64,
    state: State,
    read: Option<Line>,
) -> Result<State, CheckError>
    requires reached { IsReachedState steps state }
    requires writable { IfSome read IsWritable }
    ensures goes { (lines : List Line) → Leaves steps lines state
        → IfOk result (IsNextState steps lines read) }
    ensures refused { (lines : List Line) → Leaves steps lines state → number ≡ suc (length lines)
        → IfErr result (TellsStop (StopsNext steps lines read)) }
    ensures failed { (e : CheckError) → state ≡ State.Failed e → result ≡ Err e }
{
    match state {
        State::Empty => after_header(alloc, number, read),
        State::Program { version, text } => {
            after_program(alloc, steps, number, version, text, read)
        }
        State::Work(work) => Ok(State::Work(after_work(alloc, number, work, read)?)),
        State::Failed(error) => Err(error),
    }
}

/// The state behind the first line.
fn after_header(alloc: Global, number: u64, read: Option<Line>) -> Result<State, CheckError>
    requires { IfSome read IsWritable }
    ensures goes { (steps : ℕ) → IfOk result (IsNextState steps [] read) }
    ensures refused { (steps : ℕ) → number ≡ 1
        → IfErr result (TellsStop (StopsNext steps [] read)) }
{
    match read {
        Some(line) => {
            let Line::Header { version } = line else {
                return Err(Stop::Rejected(Reason::WrongLine).at(number));
            };
            let version = version_of(version);
            let text = Vec::new(alloc);
            Ok(State::Program { version, text })
        }
        None => Err(Stop::Rejected(Reason::BadLine).at(number)),
    }
}

/// The state behind what is read behind these lines of the program.
fn after_program(
    alloc: Global,
    steps: u64,
    number: u64,
    version: Version,
    text: Vec<u8>,
    read: Option<Line>,
) -> Result<State, CheckError>
    requires reached { IsReachedState steps (State.Program version text) }
    requires writable { IfSome read IsWritable }
    ensures goes { (lines : List Line) → Leaves steps lines (State.Program version text)
        → IfOk result (IsNextState steps lines read) }
    ensures refused { (lines : List Line) → Leaves steps lines (State.Program version text)
        → number ≡ suc (length lines)
        → IfErr result (TellsStop (StopsNext steps lines read)) }
{
    match read {
        Some(line) => after_program_line(alloc, steps, number, version, text, line),
        None => {
            let work = behind_program(alloc, steps, number, version, &text, None)?;
            Ok(State::Work(work))
        }
    }
}

/// The state behind a line that follows these lines of the program.
fn after_program_line(
    alloc: Global,
    steps: u64,
    number: u64,
    version: Version,
    mut text: Vec<u8>,
    line: Line,
) -> Result<State, CheckError>
    requires reached { IsReachedState steps (State.Program version text) }
    requires writable { IsWritable line }
    ensures goes { (lines : List Line) → Leaves steps lines (State.Program version text)
        → IfOk result (IsNextState steps lines (Some line)) }
    ensures refused { (lines : List Line) → Leaves steps lines (State.Program version text)
        → number ≡ suc (length lines)
        → IfErr result (TellsStop (StopsNext steps lines (Some line))) }
{
    match line {
        Line::Program(next) => {
            push_line(&mut text, &next.bytes)?;
            Ok(State::Program { version, text })
        }
        line => {
            let work = behind_program(alloc, steps, number, version, &text, Some(line))?;
            Ok(State::Work(work))
        }
    }
}

/// The work by this version behind what is read, as the line of this number, behind the program
/// with this text.
fn behind_program(
    alloc: Global,
    steps: u64,
    number: u64,
    version: Version,
    program: &[u8],
    read: Option<Line>,
) -> Result<Work, CheckError>
    requires fits { length program.now ≤ 67108864 }
    requires writable { IfSome read IsWritable }
    ensures goes { IfOk result (BeginsWith version program.now steps read) }
    ensures refused { IfErr result (TellsStop (IsFirstRefused version program.now steps read number)) }
{
    let work = tested_program(alloc, version, program, steps)?;
    after_work(alloc, number, work, read)
}

/// The work by this version, of the program with this text. What is wrong with it is told of line 2.
fn tested_program(
    alloc: Global,
    version: Version,
    program: &[u8],
    steps: u64,
) -> Result<Work, CheckError>
    requires { length program.now ≤ 67108864 }
    ensures version { IfOk result (λ w. w.version ≡ version) }
    ensures program { IfOk result (λ w. canonical_text (source_of w.program) ≡ program.now) }
    ensures begun { IfOk result (λ w. IsAtWork w steps []) }
    ensures refused { IfErr result (TellsStop (IsNoProgram program.now)) }
{
    match begun_work(alloc, version, program, steps) {
        Ok(work) => Ok(work),
        Err(stop) => Err(stop.at(2)),
    }
}

/// The work behind what is read as the line of this number.
fn after_work(
    alloc: Global,
    number: u64,
    work: Work,
    read: Option<Line>,
) -> Result<Work, CheckError>
    requires reached { (steps : ℕ) × (good : List Line) × IsAtWork work steps good }
    requires writable { IfSome read IsWritable }
    ensures goes { IfOk result (GoesOnWith work read) }
    ensures refused { (steps : ℕ) (good : List Line) → IsAtWork work steps good
        → IfErr result (TellsStop (IsRefusedWork work steps good read number)) }
{
    match read {
        Some(line) => after_work_line(alloc, number, work, line),
        None => Err(Stop::Rejected(Reason::BadLine).at(number)),
    }
}

/// The work behind the line of this number.
fn after_work_line(alloc: Global, number: u64, work: Work, line: Line) -> Result<Work, CheckError>
    requires reached { (steps : ℕ) × (good : List Line) × IsAtWork work steps good }
    requires writable { IsWritable line }
    ensures goes { IfOk result (GoesOn work line) }
    ensures refused { (steps : ℕ) (good : List Line) → IsAtWork work steps good
        → IfErr result (TellsStop (IsRefusedWork work steps good (Some line) number)) }
{
    match work_after(alloc, work, line) {
        Ok(work) => Ok(work),
        Err(stop) => Err(stop.at(number)),
    }
}

/// The answer where nothing follows the lines, of which there are so many.
pub(crate) fn answer_at_end(state: State, steps: u64, count: u64) -> Result<Accepted, CheckError>
    requires reached { IsReachedState steps state }
    requires few { count ≤ 67108864 }
    ensures accepted { (lines : List Line) → Leaves steps lines state → count ≡ length lines
        → IfOk result (IsAnswerOf steps lines) }
    ensures refused { (lines : List Line) → Leaves steps lines state → count ≡ length lines
        → IfErr result (TellsStop (StopsThere steps lines)) }
    ensures failed { (e : CheckError) → state ≡ State.Failed e → result ≡ Err e }
{
    match state {
        State::Work(work) => answer_of_work(work, steps, count),
        State::Failed(error) => Err(error),
        State::Empty => Err(unfinished(count)),
        State::Program { .. } => Err(unfinished(count)),
    }
}

/// The error where a line is wanting behind so many lines.
fn unfinished(count: u64) -> CheckError
    requires { count ≤ 67108864 }
    ensures { result ≡ CheckError.Rejected (suc count) 32 }
{
    Stop::Rejected(Reason::Unfinished).at(count + 1)
}

/// The answer where nothing follows the lines, of which there are so many.
fn answer_of_work(work: Work, steps: u64, count: u64) -> Result<Accepted, CheckError>
    requires reached { IsReachedState steps (State.Work work) }
    requires few { count ≤ 67108864 }
    ensures accepted { (lines : List Line) → Leaves steps lines (State.Work work)
        → count ≡ length lines → IfOk result (IsAnswerOf steps lines) }
    ensures refused { (lines : List Line) → Leaves steps lines (State.Work work)
        → count ≡ length lines → IfErr result (TellsStop (StopsThere steps lines)) }
{
    let Work {
        version,
        program,
        evidence,
        due,
        ..
    } = work;
    match due {
        Due::Nothing(verdict) => Ok(Accepted {
            program,
            verdict,
            version: number_of(version),
            lines: count,
            charge: steps - evidence.budget.left,
        }),
        _ => Err(unfinished(count)),
    }
}

/// The answer where bytes without a line feed follow the lines, as the line of this number.
pub(crate) fn refusal_of_rest(alloc: Global, steps: u64, number: u64, state: State) -> CheckError
    requires { IsReachedState steps state }
    ensures refused { (lines : List Line) → Leaves steps lines state → number ≡ suc (length lines)
        → TellsStop (StopsNext steps lines None) result }
    ensures failed { (e : CheckError) → state ≡ State.Failed e → result ≡ e }
{
    match state {
        State::Failed(error) => error,
        State::Empty => bad_line(number),
        State::Program { version, text } => {
            refusal_behind_program(alloc, steps, number, version, &text)
        }
        State::Work(_) => bad_line(number),
    }
}

/// The error of bytes that are no line, as the line of this number.
fn bad_line(number: u64) -> CheckError
    ensures { result ≡ CheckError.Rejected number 21 }
{
    Stop::Rejected(Reason::BadLine).at(number)
}

/// The answer where bytes without a line feed follow the lines of the program.
fn refusal_behind_program(
    alloc: Global,
    steps: u64,
    number: u64,
    version: Version,
    program: &[u8],
) -> CheckError
    requires { length program.now ≤ 67108864 }
    ensures { TellsStop (IsFirstRefused version program.now steps None number) result }
{
    match behind_program(alloc, steps, number, version, program, None) {
        Ok(_) => unreachable!(),
        Err(error) => error,
    }
}
