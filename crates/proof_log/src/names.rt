//! Names of variables in the text of a polynomial.

ghost use Rattle.std.specs.Prelude.{◌≡◌, ◌≤◌, ◌++◌, IfSome, IsNone, length};
ghost use Rattle.std.specs.List.{prefix_len};
ghost use Rattle.proof_log.specs.Inner.Reading.{Begins, NoneBegins, Passes, StopsAt};
ghost use Rattle.proof_log.specs.Inner.Reading.{is_plain_byte, variables};

use crate::reader::Reader;
use geo_poly::Var;

/// The variable whose name the bytes begin with, and the bytes behind the name.
pub fn read_name(bytes: &[u8]) -> Option<(Var, &[u8])>
    ensures some { IfSome result (λ r. Begins variables bytes.now r.0 r.1.now) }
    ensures none { IsNone result → NoneBegins variables bytes.now }
{
    let mut reader = Reader::new(bytes);
    let variable = reader.variable()?;
    Some((variable, reader.rest()))
}

/// The bytes before the first name, and those from it on.
pub fn before_name(bytes: &[u8]) -> (&[u8], &[u8])
    ensures split { bytes.now ≡ result.0.now ++ result.1.now }
    ensures plain { Passes is_plain_byte result.0.now }
    ensures stops { StopsAt is_plain_byte result.1.now }
{
    bytes.split_at(plain_length(bytes))
}

/// How many bytes stand before the first name.
fn plain_length(bytes: &[u8]) -> usize
    ensures run { result ≡ prefix_len is_plain_byte bytes.now }
    ensures within { result ≤ length bytes.now }
{
    bytes
        .iter()
        .take_while(|byte| is_plain_byte(**byte))
        .count()
}

/// Whether no name begins with the byte.
fn is_plain_byte(byte: u8) -> bool
    ensures { result ≡ is_plain_byte byte }
{
    byte == b'^' || byte < b'A'
}
