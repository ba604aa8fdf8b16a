//! What is proved of lines and their texts. The functions do nothing: what each says is its
//! contract.

ghost use Rattle.proof_log.specs.Laws.{LinesAreToldByTexts, LinesHaveNoLineFeed};
ghost use Rattle.proof_log.specs.Laws.{LogsAreToldByTexts};

/// Two lines that may be written and have the same text are the same line.
pub fn lines_are_told_by_texts()
    ensures { LinesAreToldByTexts }
{}

/// The text of a line that may be written has no line feed.
pub fn lines_have_no_line_feed()
    ensures { LinesHaveNoLineFeed }
{}

/// Two logs of lines that may be written and with the same text have the same lines.
pub fn logs_are_told_by_texts()
    ensures { LogsAreToldByTexts }
{}
