//! What a call hands back: a status, three numbers, and the bytes of a text.
ghost use Rattle.std.specs.Prelude.{◌≡◌};
ghost use Rattle.geo_c.specs.Answers.{TellsDue, filled};

use proof_printer::Status;

/// What a call tells besides its status.
#[repr(C)]
#[derive(Clone, Copy, Debug, PartialEq, Eq)]
pub struct Answer {
    /// How many bytes the text has that is due, also where the buffer has room for fewer.
    pub length: u64,
    /// Where: the number from 1 of a goal, a condition or a line, or the place of a token, in bytes
    /// from 0. It is 0 where the status has none of them.
    pub at: u64,
    /// Why: the number of a refusal, of a limit (1 that of norms, 2 that of degrees) or of a reason.
    /// It is 0 where the status has none of them.
    pub reason: u64,
}

/// Hands back a text and a status: the number of the status is answered.
pub fn tell(text: &[u8], status: Status, buffer: &mut [u8], answer: &mut Answer) -> u32
    ensures { TellsDue (record { text = text.now; status = status })
        buffer.old buffer.new answer.new result }
{
    fill(buffer, text);
    *answer = Answer {
        length: text.len() as u64,
        at: status.at(),
        reason: status.reason(),
    };
    status.number() as u32
}

/// Copies the text, or as much of it as there is room for, to the front of the buffer.
fn fill(buffer: &mut [u8], text: &[u8])
    ensures { buffer.new ≡ filled buffer.old text.now }
{
    let count = text.len().min(buffer.len());
    buffer[..count].copy_from_slice(&text[..count]);
}
