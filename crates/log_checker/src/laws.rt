//! What is proved of programs and their logs. The functions do nothing: what each says is its
//! contract.

ghost use Rattle.log_checker.specs.Accepted.{AcceptedBytesMean, AcceptedBytesTellPrograms};
ghost use Rattle.log_checker.specs.Accepted.{AcceptedPolynomialsAreWritable};
ghost use Rattle.log_checker.specs.Accepted.{ProgramsHaveDefinedLogs, ProgramsHaveSubjects};
ghost use Rattle.log_checker.specs.Accepted.{SubjectsAgree};
ghost use Rattle.log_checker.specs.Begun.{BeginningsGoOn, DefinedBytesAreAccepted};
ghost use Rattle.log_checker.specs.Begun.{DefinedLogsAreWritable, NextLinesAreWritable};
ghost use Rattle.log_checker.specs.Judged.{AcceptedBytesAreNotRefused, AcceptedLogsDoNotStop};
ghost use Rattle.log_checker.specs.Judged.{AcceptedWhereNotRefused, BytesAreJudged, BytesAreRead};
ghost use Rattle.log_checker.specs.Judged.{LinesGoOnOrAreRefused, RestsAreJudged};
ghost use Rattle.log_checker.specs.Judged.{BytesAreReadInOneWay, BytesAreRefusedOnce};
ghost use Rattle.log_checker.specs.Judged.{FirstStopIsUnique};
ghost use Rattle.log_checker.specs.Laws.{AcceptedSamplesAreMet, AcceptedVerdictsHold};
ghost use Rattle.log_checker.specs.Laws.{DefinedLogExists, DefinedLogsAreAccepted};
ghost use Rattle.log_checker.specs.Laws.{DefinedVerdictsDecide, FalseBreaks, ImpossibleIsNeverMet};
ghost use Rattle.log_checker.specs.Laws.{MeaningsExclude, ProvedIsTrue};
ghost use Rattle.log_checker.specs.Shown.{AcceptedLogsAreTrue};
ghost use Rattle.log_checker.specs.Subjects.{SourceLinesHaveNoLineFeed};

/// What an accepted log says of all placements that meet its program.
pub fn accepted_verdicts_hold()
    ensures { AcceptedVerdictsHold }
{}

/// The sample of an accepted log has one placement that meets its program.
pub fn accepted_samples_are_met()
    ensures { AcceptedSamplesAreMet }
{}

/// An accepted log with Proved names a true program.
pub fn proved_is_true()
    ensures { ProvedIsTrue }
{}

/// An accepted log with False names a program that its printed integers break, and the first goal
/// that fails there.
pub fn false_breaks()
    ensures { FalseBreaks }
{}

/// An accepted log with Impossible names a program that no placement meets, and a condition that
/// holds in none that meets what stands before it.
pub fn impossible_is_never_met()
    ensures { ImpossibleIsNeverMet }
{}

/// No two of the three meanings hold of a program.
pub fn meanings_exclude()
    ensures { MeaningsExclude }
{}

/// The verdict of a defined log decides which of the three meanings holds.
pub fn defined_verdicts_decide()
    ensures { DefinedVerdictsDecide }
{}

/// Each program has a defined list with an end, for each number of steps.
pub fn defined_log_exists()
    ensures { DefinedLogExists }
{}

/// The prover's list that ends with a verdict is an accepted log with this verdict.
pub fn defined_logs_are_accepted()
    ensures { DefinedLogsAreAccepted }
{}

/// What accepted bytes say of their program: with Proved it is true; with False the printed
/// integers break it, and the goal with the number is the first that fails there; with Impossible
/// no placement meets it, and the condition with the number holds in none that meets what stands
/// before it.
pub fn accepted_bytes_mean()
    ensures { AcceptedBytesMean }
{}

/// Accepted bytes are a log of one program, with one verdict and by one version.
pub fn accepted_bytes_tell_programs()
    ensures { AcceptedBytesTellPrograms }
{}

/// Each well-formed program of at most 268,435,456 bytes has a subject for each version: what its
/// logs are about.
pub fn programs_have_subjects()
    ensures { ProgramsHaveSubjects }
{}

/// And it has a defined log, for each number of steps.
pub fn programs_have_defined_logs()
    ensures { ProgramsHaveDefinedLogs }
{}

/// Whichever subject of a program and a version is taken, the same lists of lines are accepted, and
/// the same is the defined log.
pub fn subjects_agree()
    ensures { SubjectsAgree }
{}

/// What is read of an accepted log has no first stop.
pub fn accepted_logs_do_not_stop()
    ensures { AcceptedLogsDoNotStop }
{}

/// Bytes are read in one way.
pub fn bytes_are_read_in_one_way()
    ensures { BytesAreReadInOneWay }
{}

/// Accepted bytes are not refused, at no line and for no reason.
pub fn accepted_bytes_are_not_refused()
    ensures { AcceptedBytesAreNotRefused }
{}

/// What is read has one first stop at most: one line, for one reason.
pub fn first_stop_is_unique()
    ensures { FirstStopIsUnique }
{}

/// Bytes are refused at one line at most, for one reason.
pub fn bytes_are_refused_once()
    ensures { BytesAreRefusedOnce }
{}

/// Each polynomial of an accepted log can be written: its variables are sorted and their numbers
/// are small.
pub fn accepted_polynomials_are_writable()
    ensures { AcceptedPolynomialsAreWritable }
{}

/// An accepted log over the lemma table shows its verdict, of every construction.
pub fn accepted_logs_are_true()
    ensures { AcceptedLogsAreTrue }
{}

/// Lines that begin the prover's log, within the limit of its text, are a beginning of a defined
/// log; with the line that comes next they are one too.
pub fn beginnings_go_on()
    ensures { BeginningsGoOn }
{}

/// Each line that comes next in the prover's log may be written.
pub fn next_lines_are_writable()
    ensures { NextLinesAreWritable }
{}

/// Each line of a defined log may be written.
pub fn defined_logs_are_writable()
    ensures { DefinedLogsAreWritable }
{}

/// The text of a defined log that ends with a verdict is accepted with this verdict.
pub fn defined_bytes_are_accepted()
    ensures { DefinedBytesAreAccepted }
{}

/// At the place of good lines a line goes on from them, or it is refused there.
pub fn lines_go_on_or_are_refused()
    ensures { LinesGoOnOrAreRefused }
{}

/// What is read behind the lines of a program is that of an accepted log, or it has a first line
/// that is refused.
pub fn rests_are_judged()
    ensures { RestsAreJudged }
{}

/// Bytes are read, line by line.
pub fn bytes_are_read()
    ensures { BytesAreRead }
{}

/// Bytes are an accepted log, or they are refused at a line.
pub fn bytes_are_judged()
    ensures { BytesAreJudged }
{}

/// They are accepted exactly where they are refused at no line.
pub fn accepted_where_not_refused()
    ensures { AcceptedWhereNotRefused }
{}

/// The lines of a well-formed program have no line feed.
pub fn source_lines_have_no_line_feed()
    ensures { SourceLinesHaveNoLineFeed }
{}
