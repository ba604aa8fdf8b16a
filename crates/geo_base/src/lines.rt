//! Reading a source line by line.
ghost use Rattle.std.specs.Prelude.{◌≡◌, ◌+◌, ◌<◌, ◌≤◌, ◌↔◌, [], length, false, Contains, IfOk};
ghost use Rattle.std.specs.Prelude.{IsErrOf, IsTrue, OnErr, OnOk};
ghost use Rattle.geo_base.specs.Devices.{HasEnded, HasRisen, Loses};

use crate::intake::Intake;
use crate::next_line::NextLine;
use crate::no_memory::NoMemory;
use crate::reading::{ReadError, Source};
use std::alloc::Global;
use std::marker::Model;

/// A reader of lines. It takes bytes from a source in large pieces and keeps those that it has not
/// handed out yet, so it is given the same source at each call.
#[derive(Drop)]
pub struct LineReader {
    intake: Intake,
    ended: bool,
}

impl Model for LineReader {
    ghost use Rattle.std.specs.Prelude.{◌≡◌, ◌≤◌, ◌++◌, [], false};
    ghost use Rattle.geo_base.specs.Lines.{ReaderState};

    ghost Value = { ReaderState };

    ghost view = { λ r. record {
      limit = r.intake.limit;
      taken = r.intake.taken;
      waiting = r.intake.line.items ++ r.intake.piece;
      ended = r.ended;
    } };

    ghost invariant = { λ r. (r.intake.limit ≤ 67108864)
        × (r.ended ≡ false → r.intake.taken ≤ r.intake.limit)
        × (r.ended ≡ false → r.intake.line.items ≡ []) };
}

impl LineReader {
    ghost use Rattle.geo_base.specs.Lines.{handed_out, is_rest, line_feed, open_bytes, text_of};

    /// A reader that takes at most `limit` bytes, and one more to see that there are too many.
    pub fn new(alloc: Global, limit: u64) -> Result<LineReader, NoMemory>
        requires { limit ≤ 67108864 }
        ensures { IfOk result (λ reader. reader ≡ record {
          limit = limit;
          taken = 0;
          waiting = [];
          ended = false;
        }) }
    {
        Ok(LineReader {
            intake: Intake::new(alloc, limit)?,
            ended: false,
        })
    }

    /// The next line, or at the end of the input the rest. It answers `TooLong` where it has taken
    /// more than the limit, though lines before that may be waiting. Nothing follows the rest or an
    /// error.
    pub fn next<S: Source>(&mut self, source: &mut S) -> Result<NextLine, ReadError>
        requires { self.old.ended ≡ false }

        // What is handed out was at the front of the open bytes; an error leaves these alone.
        ensures opened { Loses (open_bytes self.old.waiting (S.left source.old))
            (handed_out result) (open_bytes self.new.waiting (S.left source.new)) }
        ensures counted { length self.old.waiting + self.new.taken
            ≡ self.old.taken + length (handed_out result) + length self.new.waiting }
        ensures one { IfOk result (λ next. ¬ Contains (text_of next) line_feed) }
        ensures rest { IfOk result (λ next. IsTrue (is_rest next)
            → (self.new.waiting ≡ []) × HasEnded (S.left source.new)) }

        // The source is read only where no line waits, and never past the limit and one byte.
        ensures unread { Contains self.old.waiting line_feed
            → (source.new ≡ source.old) × (self.new.taken ≡ self.old.taken) }
        ensures more { self.old.taken ≤ self.new.taken }
        ensures most { self.new.taken ≤ self.new.limit + 1 }
        ensures within { OnOk result (self.new.taken ≤ self.new.limit) }
        ensures limit { self.new.limit ≡ self.old.limit }

        ensures ended { IfOk result (λ next. self.new.ended ≡ is_rest next) }
        ensures failed { OnErr result (IsTrue self.new.ended) }
        ensures too_long { IsErrOf result ReadError.TooLong
            ↔ ((self.old.taken ≤ self.old.limit) × (self.new.limit < self.new.taken)) }
        ensures fault { IsErrOf result ReadError.ReadFault
            → HasRisen (S.faults source.old) (S.faults source.new) }
        ensures heard { ¬ IsErrOf result ReadError.ReadFault
            → S.faults source.new ≡ S.faults source.old }
        ensures faults { S.faults source.old ≤ S.faults source.new }
    {
        let answer = self.intake.next(source);
        self.ended = !matches!(&answer, Ok(NextLine::Line(_)));
        answer
    }
}
