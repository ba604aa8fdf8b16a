//! The words that begin an expression, and the words that no name may be.

ghost use Rattle.std.specs.Prelude.{◌≡◌, ◌↔◌, Bool, ℕ, IfSome, IsTrue, option_map};
ghost use Rattle.geo_parser.specs.Forms.{due_behind, expressions};
ghost use Rattle.geo_parser.specs.Slots as slots;
ghost use Rattle.geo_parser.specs.Inner.StatementWords.{expression_due, expression_text};

use crate::command_words::CommandWord;
use crate::statement_words::StatementWord;
use crate::tables::find;

/// A word that begins an expression.
#[derive(Clone, Copy)]
pub enum ExpressionWord {
    /// `signed_area3`
    SignedArea,
    /// `pythagoras_difference3`
    PythagorasDifference,
    /// `sratio`
    Ratio,
    /// `neg`
    Neg,
    /// `sum`
    Sum,
    /// `sub`
    Sub,
    /// `mult`
    Mult,
    /// `div`
    Div,
}

const EXPRESSIONS: [(&[u8], ExpressionWord); 8] = [
    (b"signed_area3", ExpressionWord::SignedArea),
    (
        b"pythagoras_difference3",
        ExpressionWord::PythagorasDifference,
    ),
    (b"sratio", ExpressionWord::Ratio),
    (b"neg", ExpressionWord::Neg),
    (b"sum", ExpressionWord::Sum),
    (b"sub", ExpressionWord::Sub),
    (b"mult", ExpressionWord::Mult),
    (b"div", ExpressionWord::Div),
];

// The further words that no name may be.
const OTHERS: [(&[u8], ()); 2] = [(b"assume", ()), (b"prove", ())];

impl ExpressionWord {
    /// The expression that the word begins.
    pub fn of(word: &[u8]) -> Option<ExpressionWord>
        ensures due { (level : ℕ) (ratios : Bool)
            → option_map (expression_due level ratios) result
            ≡ due_behind word.now (expressions level ratios) }
        ensures text { IfSome result (λ w. expression_text w ≡ word.now) }
    {
        find(&EXPRESSIONS, word)
    }

    /// Whether it may stand where ratios may stand or not.
    pub fn may_stand(self, ratios: bool) -> bool
        ensures { IsTrue result ↔ (self ≡ ExpressionWord.Ratio → IsTrue ratios) }
    {
        ratios || !matches!(self, ExpressionWord::Ratio)
    }
}

/// Whether the word is reserved.
pub fn is_reserved(word: &[u8]) -> bool
    ensures { result ≡ slots.is_reserved word.now }
{
    CommandWord::of(word).is_some()
        || StatementWord::of(word).is_some()
        || ExpressionWord::of(word).is_some()
        || find(&OTHERS, word).is_some()
}
