//! The form of the tables of moves.

// A condition or a goal of a program, counted from 1.
#[derive(Clone, Copy)]
pub enum Item {
    Condition(usize),
    Goal(usize),
}

// A move, by the numbers of points. A ratio's has those of the ratio, the lemma and the point that
// it looks at.
#[derive(Clone, Copy)]
pub enum Named {
    Ratio([u32; 4], u32, u32),
    Point(u32),
    Coords,
}

// A term, the moves on its start, and the text of the chain: the charge and the polynomial of each
// line, and before them
// each row in use, with its power, with weight, count and degree of both sides, and with its
// charge. Where a move gives
// no polynomial, the one before it stands.
pub type Chain = (Item, &'static [Named], &'static str);

// A text that spells a program, and chains of that program.
pub type Figure = (&'static str, &'static [Chain]);
