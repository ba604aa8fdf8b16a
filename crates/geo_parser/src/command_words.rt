//! The words that begin a command, by what stands behind the new name or the word of a condition.

ghost use Rattle.std.specs.Prelude.{◌≡◌, ◌<◌, ◌∷◌, [], IfSome, None, length, option_map};
ghost use Rattle.geo_parser.specs.Inner.CommandWords.{command_due, command_kind, command_points};
ghost use Rattle.geo_parser.specs.Inner.CommandWords.{command_text, direction_points};
ghost use Rattle.geo_parser.specs.Inner.CommandWords.{direction_text, pair_kind, pair_points};
ghost use Rattle.geo_parser.specs.Inner.CommandWords.{pair_text, step_text, triple_points};
ghost use Rattle.geo_parser.specs.Inner.CommandWords.{triple_text};
ghost use Rattle.geo_parser.specs.Inner.CommandWords.{command_condition, condition_slots};
ghost use Rattle.geo_parser.specs.Inner.CommandWords.{condition_text};
ghost use Rattle.geo_parser.specs.Forms.{conditions, due_behind, naming_commands};
ghost use Rattle.geo_program.specs.Forms.{IsStored, command_form, form, line_argument};
ghost use Rattle.geo_program.specs.Forms.{number_argument, point_argument};
ghost use Rattle.geo_program.specs.declared.names.NameKind.TheVariants as kind;
ghost use Rattle.geo_terms.specs.Stores.{Store, tree_of};

use crate::tables::find;
use geo_points::{PointId, TermId};
use geo_program::{Command, LineId, NameKind};

/// A command on two points.
#[derive(Clone, Copy)]
pub enum PairWord {
    /// `line`
    Line,
    /// `med`
    Med,
    /// `online`
    Online,
    /// `midpoint`
    Midpoint,
    /// `symmetric`
    Symmetric,
    /// `oncircle`
    Oncircle,
}

/// A command on three points.
#[derive(Clone, Copy)]
pub enum TripleWord {
    /// `foot`
    Foot,
    /// `translate`
    Translate,
    /// `reflect`
    Reflect,
    /// `circumcenter`
    Circumcenter,
    /// `orthocenter`
    Orthocenter,
    /// `centroid`
    Centroid,
    /// `second`
    Second,
    /// `cc`
    Cc,
    /// `inverse`
    Inverse,
}

/// A command on a point and a line.
#[derive(Clone, Copy)]
pub enum DirectionWord {
    /// `parallel`
    Parallel,
    /// `perp`
    Perp,
}

/// A command on two points and a number.
#[derive(Clone, Copy)]
pub enum StepWord {
    /// `tratio`
    Tratio,
    /// `lratio`
    Lratio,
}

/// The word of a condition that is assumed.
#[derive(Clone, Copy)]
pub enum ConditionWord {
    /// `different`
    Different,
    /// `not_collinear`
    NotCollinear,
    /// `not_parallel`
    NotParallel,
}

/// A word that begins a command. With `assume` goes the word of the condition.
#[derive(Clone, Copy)]
pub enum CommandWord {
    /// `point`
    Point,
    /// `param`
    Param,
    /// A command on two points.
    Pair(PairWord),
    /// A command on three points.
    Triple(TripleWord),
    /// `inter`
    Inter,
    /// A command on a point and a line.
    Direction(DirectionWord),
    /// `intersec`
    Intersec,
    /// `pratio`
    Pratio,
    /// A command on two points and a number.
    Step(StepWord),
    /// `weights`
    Weights,
    /// `assume` with a condition.
    Assume(ConditionWord),
}

// The commands that have a new name.
const COMMANDS: [(&[u8], CommandWord); 25] = [
    (b"point", CommandWord::Point),
    (b"param", CommandWord::Param),
    (b"line", CommandWord::Pair(PairWord::Line)),
    (b"parallel", CommandWord::Direction(DirectionWord::Parallel)),
    (b"perp", CommandWord::Direction(DirectionWord::Perp)),
    (b"med", CommandWord::Pair(PairWord::Med)),
    (b"intersec", CommandWord::Intersec),
    (b"inter", CommandWord::Inter),
    (b"foot", CommandWord::Triple(TripleWord::Foot)),
    (b"pratio", CommandWord::Pratio),
    (b"tratio", CommandWord::Step(StepWord::Tratio)),
    (b"online", CommandWord::Pair(PairWord::Online)),
    (b"lratio", CommandWord::Step(StepWord::Lratio)),
    (b"midpoint", CommandWord::Pair(PairWord::Midpoint)),
    (b"translate", CommandWord::Triple(TripleWord::Translate)),
    (b"symmetric", CommandWord::Pair(PairWord::Symmetric)),
    (b"reflect", CommandWord::Triple(TripleWord::Reflect)),
    (
        b"circumcenter",
        CommandWord::Triple(TripleWord::Circumcenter),
    ),
    (b"orthocenter", CommandWord::Triple(TripleWord::Orthocenter)),
    (b"centroid", CommandWord::Triple(TripleWord::Centroid)),
    (b"oncircle", CommandWord::Pair(PairWord::Oncircle)),
    (b"second", CommandWord::Triple(TripleWord::Second)),
    (b"cc", CommandWord::Triple(TripleWord::Cc)),
    (b"inverse", CommandWord::Triple(TripleWord::Inverse)),
    (b"weights", CommandWord::Weights),
];

const CONDITIONS: [(&[u8], ConditionWord); 3] = [
    (b"different", ConditionWord::Different),
    (b"not_collinear", ConditionWord::NotCollinear),
    (b"not_parallel", ConditionWord::NotParallel),
];

impl ConditionWord {
    /// The condition that has this word.
    pub fn of(word: &[u8]) -> Option<ConditionWord>
        ensures due { option_map condition_slots result ≡ due_behind word.now conditions }
        ensures text { IfSome result (λ w. condition_text w ≡ word.now) }
    {
        find(&CONDITIONS, word)
    }
}

impl CommandWord {
    /// The command with a new name that the word begins.
    pub fn of(word: &[u8]) -> Option<CommandWord>
        ensures due { option_map command_due result ≡ due_behind word.now naming_commands }
        ensures text { IfSome result (λ w. command_text w ≡ word.now) }
        ensures condition { IfSome result (λ w. command_condition w ≡ None) }
    {
        find(&COMMANDS, word)
    }

    /// What the new name names. An assumption has none.
    pub fn kind(self) -> Option<NameKind>
        ensures { result ≡ command_kind self }
    {
        match self {
            CommandWord::Assume(_) => None,
            CommandWord::Param => Some(NameKind::Param),
            CommandWord::Pair(PairWord::Line | PairWord::Med) | CommandWord::Direction(_) => {
                Some(NameKind::Line)
            }
            _ => Some(NameKind::Point),
        }
    }

    /// How many points the construction makes.
    pub fn points(self) -> u32
        ensures { result ≡ command_points self }
    {
        match self {
            CommandWord::Param | CommandWord::Assume(_) => 0,
            CommandWord::Weights => 2,
            CommandWord::Pair(word) => word.points(),
            CommandWord::Triple(word) => word.points(),
            CommandWord::Direction(DirectionWord::Perp) => 2,
            _ => 1,
        }
    }
}

impl PairWord {
    fn points(self) -> u32
        ensures { result ≡ pair_points self }
    {
        match self {
            PairWord::Line => 0,
            PairWord::Med => 2,
            PairWord::Oncircle => 3,
            PairWord::Online | PairWord::Midpoint | PairWord::Symmetric => 1,
        }
    }

    /// The command on these points.
    pub fn on(self, a: PointId, b: PointId) -> Command
        ensures form { (nodes : Store) → command_form nodes result
            ≡ form (pair_text self) (pair_kind self) (pair_points self)
            (point_argument a ∷ point_argument b ∷ []) }
        ensures stored { (nodes : Store) → IsStored nodes result }
    {
        match self {
            PairWord::Line => Command::Line { a, b },
            PairWord::Med => Command::Med { a, b },
            PairWord::Online => Command::Online { a, b },
            PairWord::Midpoint => Command::Midpoint { a, b },
            PairWord::Symmetric => Command::Symmetric { a, o: b },
            PairWord::Oncircle => Command::Oncircle { o: a, a: b },
        }
    }
}

impl TripleWord {
    fn points(self) -> u32
        ensures { result ≡ triple_points self }
    {
        match self {
            TripleWord::Foot | TripleWord::Translate | TripleWord::Inverse => 1,
            TripleWord::Reflect | TripleWord::Centroid | TripleWord::Second | TripleWord::Cc => 2,
            TripleWord::Orthocenter => 3,
            TripleWord::Circumcenter => 5,
        }
    }

    /// The command on these points.
    pub fn on(self, a: PointId, b: PointId, c: PointId) -> Command
        ensures form { (nodes : Store) → command_form nodes result
            ≡ form (triple_text self) kind.Point (triple_points self)
            (point_argument a ∷ point_argument b ∷ point_argument c ∷ []) }
        ensures stored { (nodes : Store) → IsStored nodes result }
    {
        match self {
            TripleWord::Foot => Command::Foot { p: a, a: b, b: c },
            TripleWord::Translate => Command::Translate { a, b, c },
            TripleWord::Reflect => Command::Reflect { a, p: b, q: c },
            TripleWord::Circumcenter => Command::Circumcenter { a, b, c },
            TripleWord::Orthocenter => Command::Orthocenter { a, b, c },
            TripleWord::Centroid => Command::Centroid { a, b, c },
            TripleWord::Second => Command::Second { a, b, o: c },
            TripleWord::Cc => Command::Cc { o: a, p: b, a: c },
            TripleWord::Inverse => Command::Inverse { p: a, o: b, a: c },
        }
    }
}

impl DirectionWord {
    /// The command on this point and this line.
    pub fn on(self, p: PointId, b: LineId) -> Command
        ensures form { (nodes : Store) → command_form nodes result
            ≡ form (direction_text self) kind.Line (direction_points self)
            (point_argument p ∷ line_argument b ∷ []) }
        ensures stored { (nodes : Store) → IsStored nodes result }
    {
        match self {
            DirectionWord::Parallel => Command::Parallel { p, b },
            DirectionWord::Perp => Command::Perp { p, b },
        }
    }
}

impl StepWord {
    /// The command on these points and this number.
    pub fn on(self, a: PointId, b: PointId, r: TermId) -> Command
        ensures form { (nodes : Store) → command_form nodes result
            ≡ form (step_text self) kind.Point 1
            (point_argument a ∷ point_argument b ∷ number_argument (tree_of nodes r) ∷ []) }
        ensures stored { (nodes : Store) → r.0 < length nodes → IsStored nodes result }
    {
        match self {
            StepWord::Tratio => Command::Tratio { u: a, v: b, r },
            StepWord::Lratio => Command::Lratio { a, b, r },
        }
    }
}
