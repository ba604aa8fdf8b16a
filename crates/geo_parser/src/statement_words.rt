//! The words that begin a statement, by what stands behind them.

ghost use Rattle.std.specs.Prelude.{◌≡◌, ◌∷◌, [], IfSome, option_map};
ghost use Rattle.geo_parser.specs.Forms.{due_behind, statements};
ghost use Rattle.geo_parser.specs.Inner.StatementWords.{quadruple_text, statement_due};
ghost use Rattle.geo_parser.specs.Inner.StatementWords.{statement_text, triple_text};
ghost use Rattle.geo_program.specs.Forms.{AreSidesStored, on_points, statement_form};
ghost use Rattle.geo_terms.specs.Stores.{Store};

use crate::tables::find;
use geo_points::PointId;
use geo_program::Statement;

/// A statement on three points.
#[derive(Clone, Copy)]
pub enum TripleStatement {
    /// `collinear`
    Collinear,
    /// `midpoint`
    Midpoint,
}

/// A statement on four points.
#[derive(Clone, Copy)]
pub enum QuadrupleStatement {
    /// `parallel`
    Parallel,
    /// `perpendicular`
    Perpendicular,
    /// `same_length`
    SameLength,
    /// `harmonic`
    Harmonic,
    /// `concyclic`
    Concyclic,
}

/// A word that begins a statement.
#[derive(Clone, Copy)]
pub enum StatementWord {
    /// `equal`
    Equal,
    /// `identical`
    Identical,
    /// A statement on three points.
    Triple(TripleStatement),
    /// A statement on four points.
    Quadruple(QuadrupleStatement),
}

const STATEMENTS: [(&[u8], StatementWord); 9] = [
    (b"equal", StatementWord::Equal),
    (
        b"collinear",
        StatementWord::Triple(TripleStatement::Collinear),
    ),
    (
        b"parallel",
        StatementWord::Quadruple(QuadrupleStatement::Parallel),
    ),
    (
        b"perpendicular",
        StatementWord::Quadruple(QuadrupleStatement::Perpendicular),
    ),
    (b"identical", StatementWord::Identical),
    (
        b"midpoint",
        StatementWord::Triple(TripleStatement::Midpoint),
    ),
    (
        b"same_length",
        StatementWord::Quadruple(QuadrupleStatement::SameLength),
    ),
    (
        b"harmonic",
        StatementWord::Quadruple(QuadrupleStatement::Harmonic),
    ),
    (
        b"concyclic",
        StatementWord::Quadruple(QuadrupleStatement::Concyclic),
    ),
];

impl StatementWord {
    /// The statement that the word begins.
    pub fn of(word: &[u8]) -> Option<StatementWord>
        ensures due { option_map statement_due result ≡ due_behind word.now statements }
        ensures text { IfSome result (λ w. statement_text w ≡ word.now) }
    {
        find(&STATEMENTS, word)
    }
}

impl TripleStatement {
    /// The statement on these points.
    pub fn on(self, a: PointId, b: PointId, c: PointId) -> Statement
        ensures form { (nodes : Store) → statement_form nodes result
            ≡ on_points (triple_text self) (a ∷ b ∷ c ∷ []) }
        ensures stored { (nodes : Store) → AreSidesStored nodes result }
    {
        match self {
            TripleStatement::Collinear => Statement::Collinear { a, b, c },
            TripleStatement::Midpoint => Statement::Midpoint { m: a, a: b, b: c },
        }
    }
}

impl QuadrupleStatement {
    /// The statement on these points.
    pub fn on(self, a: PointId, b: PointId, c: PointId, d: PointId) -> Statement
        ensures form { (nodes : Store) → statement_form nodes result
            ≡ on_points (quadruple_text self) (a ∷ b ∷ c ∷ d ∷ []) }
        ensures stored { (nodes : Store) → AreSidesStored nodes result }
    {
        match self {
            QuadrupleStatement::Parallel => Statement::Parallel { a, b, c, d },
            QuadrupleStatement::Perpendicular => Statement::Perpendicular { a, b, c, d },
            QuadrupleStatement::SameLength => Statement::SameLength { a, b, c, d },
            QuadrupleStatement::Harmonic => Statement::Harmonic { a, b, c, d },
            QuadrupleStatement::Concyclic => Statement::Concyclic { a, b, c, d },
        }
    }
}
