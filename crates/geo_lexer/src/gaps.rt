//! What stands between tokens.

ghost use Rattle.std.specs.Prelude.{◌≡◌, ◌≤◌, ◌<◌, false, length, IfSome, IsNone, slice_index};
ghost use Rattle.geo_lexer.specs.Bytes.{is_blank, is_comment_start};
ghost use Rattle.geo_lexer.specs.Tokens.{IsGap, IsLastGap};

// Where the blanks and comments from a place on end before the text does; `None` where they go on
// to its end.
pub(crate) fn next_place(bytes: &[u8], start: usize) -> Option<usize>
    requires { start ≤ length bytes.now }
    ensures none { IsNone result → IsLastGap bytes.now start }
    ensures gap { IfSome result (λ place. IsGap bytes.now start place) }
    ensures within { IfSome result (λ place. place < length bytes.now) }
    ensures no_blank { IfSome result (λ place. is_blank (slice_index bytes.now place) ≡ false) }
    ensures no_comment { IfSome result (λ place. is_comment_start (slice_index bytes.now place)
        ≡ false) }
{
    let mut inside = false;
    for (i, byte) in bytes[start..].iter().enumerate() {
        if inside {
            inside = *byte != b'\n';
        } else if *byte == b'%' {
            inside = true;
        } else if !is_blank(*byte) {
            return Some(start + i);
        }
    }
    None
}

// Whether a byte is a tab, a line feed, a carriage return or a space.
fn is_blank(byte: u8) -> bool
    ensures { result ≡ is_blank byte }
{
    matches!(byte, b'\t' | b'\n' | b'\r' | b' ')
}
