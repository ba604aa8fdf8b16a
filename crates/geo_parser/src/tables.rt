//! Tables of words.

ghost use Rattle.std.specs.Prelude.{◌≡◌, map};
ghost use Rattle.geo_parser.specs.Texts.{found};

/// What the table has for the word.
pub fn find<M: Copy>(table: &[(&[u8], M)], word: &[u8]) -> Option<M>
    ensures { result ≡ found (map (λ e. (e.0.now, e.1)) table.now) word.now }
{
    for (text, meaning) in table {
        if *text == word {
            return Some(*meaning);
        }
    }
    None
}
