//! Taking bytes from a source, line by line.
ghost use Rattle.std.specs.Prelude.{◌≡◌, ◌+◌, ◌<◌, ◌≤◌, ◌∷◌, ◌++◌, ◌↔◌, [], length, Contains, IfOk};
ghost use Rattle.std.specs.Prelude.{IsErrOf, IsTrue, OnErr, OnOk};
ghost use Rattle.std.specs.Bool.{MatchBool};
ghost use Rattle.geo_base.specs.Devices.{HasEnded, HasRisen, Loses};
ghost use Rattle.geo_base.specs.Lines.{handed_out, is_rest, line_feed, open_bytes, text_of};

use crate::next_line::NextLine;
use crate::piece::Piece;
use crate::reading::{ReadError, Source};
use crate::texts::Text;
use memchr::memchr;
use std::alloc::{AllocError, Global};
use std::mem;

/// What was taken from a source and not yet handed out: the front of a line, and then a piece.
#[derive(Drop)]
pub struct Intake {
    /// The most bytes that may be taken.
    pub limit: u64,
    /// How many bytes were taken.
    pub taken: u64,
    /// The front of a line.
    pub line: Vec<u8>,
    /// The bytes after it.
    pub piece: Piece,
}

impl Intake {
    /// Nothing taken yet.
    pub fn new(alloc: Global, limit: u64) -> Result<Intake, AllocError>
        ensures limit { IfOk result (λ intake. intake.limit ≡ limit) }
        ensures taken { IfOk result (λ intake. intake.taken ≡ 0) }
        ensures line { IfOk result (λ intake. intake.line.items ≡ []) }
        ensures piece { IfOk result (λ intake. intake.piece ≡ []) }
    {
        Ok(Intake {
            limit,
            taken: 0,
            line: Vec::new(alloc),
            piece: Piece::new(alloc)?,
        })
    }

    /// The next line or the rest, which are handed out.
    pub fn next<S: Source>(&mut self, source: &mut S) -> Result<NextLine, ReadError>
        requires limit { self.old.limit ≤ 67108864 }
        requires short { self.old.taken ≤ self.old.limit }
        requires no_line { self.old.line.items ≡ [] }
        ensures limit { self.new.limit ≡ self.old.limit }
        ensures opened { Loses
            (open_bytes (self.old.line.items ++ self.old.piece) (S.left source.old))
            (handed_out result)
            (open_bytes (self.new.line.items ++ self.new.piece) (S.left source.new)) }
        ensures counted { length (self.old.line.items ++ self.old.piece) + self.new.taken
            ≡ self.old.taken + length (handed_out result)
            + length (self.new.line.items ++ self.new.piece) }
        ensures more { self.old.taken ≤ self.new.taken }
        ensures most { self.new.taken ≤ self.new.limit + 1 }
        ensures unread { Contains self.old.piece line_feed
            → (source.new ≡ source.old) × (self.new.taken ≡ self.old.taken) }
        ensures one { IfOk result (λ next. ¬ Contains (text_of next) line_feed) }
        ensures rest { IfOk result (λ next. IsTrue (is_rest next)
            → (self.new.piece ≡ []) × HasEnded (S.left source.new)) }
        ensures no_line { OnOk result (self.new.line.items ≡ []) }
        ensures too_long { IsErrOf result ReadError.TooLong ↔ (self.new.limit < self.new.taken) }
        ensures fault { IsErrOf result ReadError.ReadFault
            → HasRisen (S.faults source.old) (S.faults source.new) }
        ensures heard { ¬ IsErrOf result ReadError.ReadFault
            → S.faults source.new ≡ S.faults source.old }
        ensures faults { S.faults source.old ≤ S.faults source.new }
    {
        while !self.take_line()? {
            if !self.refill(source)? {
                return Ok(NextLine::Rest(self.hand_out()));
            }
        }
        Ok(NextLine::Line(self.hand_out()))
    }

    /// Moves bytes from the piece to the line, up to a line feed, which is used up too. Answers
    /// whether there was one.
    fn take_line(&mut self) -> Result<bool, AllocError>
        ensures found { IfOk result (λ found. MatchBool found
            (self.old.line.items ++ self.old.piece
            ≡ self.new.line.items ++ line_feed ∷ self.new.piece)
            ((self.new.line.items ≡ self.old.line.items ++ self.old.piece)
            × (self.new.piece ≡ []))) }
        ensures one { ¬ Contains self.old.line.items line_feed
            → ¬ Contains self.new.line.items line_feed }
        ensures err { OnErr result (self.new.line.items ≡ self.old.line.items) }
        ensures err_piece { OnErr result (self.new.piece ≡ self.old.piece) }
        ensures limit { self.new.limit ≡ self.old.limit }
        ensures taken { self.new.taken ≡ self.old.taken }
    {
        let bytes = self.piece.bytes();
        match memchr(b'\n', bytes) {
            Some(at) => {
                self.line.extend_from_slice(&bytes[..at])?;
                self.piece.skip(at + 1);
                Ok(true)
            }
            None => {
                self.line.extend_from_slice(bytes)?;
                self.piece.clear();
                Ok(false)
            }
        }
    }

    /// Reads the next piece in place of the last one, and answers whether it has bytes.
    fn refill<S: Source>(&mut self, source: &mut S) -> Result<bool, ReadError>
        requires limit { self.old.limit ≤ 67108864 }
        requires short { self.old.taken ≤ self.old.limit }
        ensures limit { self.new.limit ≡ self.old.limit }
        ensures line { self.new.line.items ≡ self.old.line.items }
        ensures lost { Loses (S.left source.old) self.new.piece (S.left source.new) }
        ensures counted { self.new.taken ≡ self.old.taken + length self.new.piece }
        ensures most { self.new.taken ≤ self.new.limit + 1 }
        ensures more { IfOk result (λ more. MatchBool more (0 < length self.new.piece)
            ((self.new.piece ≡ []) × HasEnded (S.left source.new))) }
        ensures too_long { IsErrOf result ReadError.TooLong ↔ (self.new.limit < self.new.taken) }
        ensures memory { ¬ IsErrOf result ReadError.NoMemory }
        ensures fault { IsErrOf result ReadError.ReadFault
            → HasRisen (S.faults source.old) (S.faults source.new) }
        ensures heard { ¬ IsErrOf result ReadError.ReadFault
            → S.faults source.new ≡ S.faults source.old }
        ensures faults { S.faults source.old ≤ S.faults source.new }
    {
        let room = (self.limit - self.taken + 1) as usize;
        let count = self.piece.refill(source, room)?;
        self.taken += count as u64;
        if self.taken > self.limit {
            return Err(ReadError::TooLong);
        }
        Ok(count > 0)
    }

    /// The line, which is handed out.
    fn hand_out(&mut self) -> Text
        ensures text { result ≡ self.old.line.items }
        ensures line { self.new.line.items ≡ [] }
        ensures piece { self.new.piece ≡ self.old.piece }
        ensures limit { self.new.limit ≡ self.old.limit }
        ensures taken { self.new.taken ≡ self.old.taken }
    {
        let alloc = *self.line.allocator();
        Text {
            bytes: mem::replace(&mut self.line, Vec::new(alloc)),
        }
    }
}
