//! The lines of a program, by their text.

ghost use Rattle.std.specs.Prelude.{◌≡◌, ◌∷◌, ◌++◌, [], IfSome, OnOk};
ghost use Rattle.proof_log.specs.Lines.{line_text};
ghost use Rattle.proof_log.specs.Writable.{HasNoLineFeed};
ghost use Rattle.proof_log.specs.declared.log.Line.{Line};

use geo_points::NoMemory;

/// What a line of the program says, where the line with these bytes is one.
pub(crate) fn said(bytes: &[u8]) -> Option<&[u8]>
    requires { HasNoLineFeed bytes.now }
    ensures spelt { IfSome result (λ text. line_text (Line.Program text.now) ≡ bytes.now) }
    ensures one_line { IfSome result (λ text. HasNoLineFeed text.now) }
{
    bytes.strip_prefix(b"| ")
}

/// Adds a line with its line feed.
pub(crate) fn push_line(program: &mut Vec<u8>, text: &[u8]) -> Result<(), NoMemory>
    ensures { OnOk result (program.new.items ≡ program.old.items ++ (text.now ++ 10 ∷ [])) }
{
    program.extend_from_slice(text)?;
    program.push(b'\n')?;
    Ok(())
}
