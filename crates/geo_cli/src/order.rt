//! The order that the words of the command line give.
ghost use Rattle.std.specs.Prelude.{◌≡◌, ◌<◌, ◌∷◌, ◌++◌, [], ℕ, List, length, IfNone, IfSome};
ghost use Rattle.std.specs.Prelude.{IsSomeAnd};
ghost use Rattle.std.specs.Str.Parse.{starts_with_minus};
ghost use Rattle.std.specs.String.{string_bytes};
ghost use Rattle.geo_cli.specs.Inner.OrderParts.{SplitsOff, front_of, tail_of};
ghost use Rattle.geo_cli.specs.Orders.{IsOrder, IsRow};
ghost use Rattle.geo_cli.specs.Words.{bytes_of_words};
ghost use Rattle.geo_cli.specs.declared.order.Command.{Command};
ghost use Rattle.geo_cli.specs.declared.order.Order.{Order};

use crate::numbers::number_of;

#[cfg(test)]
mod tests;

/// What the program is to do.
#[derive(Clone, Copy, Debug, PartialEq, Eq)]
pub enum Command {
    /// Prove the statement of a program, and write the log.
    Prove,
    /// Check a log.
    Check,
    /// Print the proof of a log.
    Text,
    /// Print the points of a program at values.
    Place,
    /// Draw the points of a program at values.
    Figure,
    /// Cite the theorem of a log at a program.
    Cite,
    /// Write the relations of a figure.
    Discover,
    /// Decide a program with its first point at the origin.
    Fixed,
    /// Prove the generated program of this number, from 1 to 60.
    Bench(u32),
}

/// The command whose row is the name alone.
fn plain_command(name: &str) -> Option<Command>
    ensures row { IfSome result (IsRow (name.now ∷ [])) }
    ensures complete { (c : Command) → IsRow (name.now ∷ []) c → result ≡ Some c }
{
    match name {
        "prove" => Some(Command::Prove),
        "fixed" => Some(Command::Fixed),
        "discover" => Some(Command::Discover),
        "place" => Some(Command::Place),
        "figure" => Some(Command::Figure),
        "check" => Some(Command::Check),
        "text" => Some(Command::Text),
        "cite" => Some(Command::Cite),
        _ => None,
    }
}

/// A command, and the steps that it may take.
#[derive(Clone, Copy, Debug, PartialEq, Eq)]
pub struct Order {
    /// The command.
    pub command: Command,
    /// The steps, from 1 to 1,000,000,000,000.
    pub steps: u64,
}

/// The steps where no option tells them.
const DEFAULT_STEPS: u64 = 100_000_000;

/// The most steps.
const MOST_STEPS: u64 = 1_000_000_000_000;

/// The greatest number of a generated program.
const MOST_BENCH: u64 = 60;

/// The order that the words give, or `None` where they give none.
pub fn order_of(words: &Vec<String>) -> Option<Order>
    ensures given { IfSome result (IsOrder (bytes_of_words words.now.items)) }
    ensures complete { (order : Order) → IsOrder (bytes_of_words words.now.items) order
        → result ≡ Some order }
    ensures one { (a b : Order) → IsOrder (bytes_of_words words.now.items) a
        → IsOrder (bytes_of_words words.now.items) b → a ≡ b }
{
    let (front, tail) = cut(words.as_slice());
    let (steps, back) = steps_of(tail)?;
    let command = command_of(front, back)?;
    Some(Order { command, steps })
}

/// The words before the first that begins with `-`, and those from there on.
fn cut(words: &[String]) -> (&[String], &[String])
    ensures front { bytes_of_words result.0.now ≡ front_of (bytes_of_words words.now) }
    ensures tail { bytes_of_words result.1.now ≡ tail_of (bytes_of_words words.now) }
{
    for (i, word) in words.iter().enumerate() {
        if begins_option(word.as_bytes()) {
            return words.split_at(i);
        }
    }
    (words, &[])
}

/// Whether the word begins with `-`.
fn begins_option(word: &[u8]) -> bool
    ensures { result ≡ starts_with_minus word.now }
{
    matches!(word, [b'-', ..])
}

/// The steps that an option at the front tells, or the default where there are no words; and the
/// words behind it.
fn steps_of(words: &[String]) -> Option<(u64, &[String])>
    ensures told { IfSome result (λ r.
        SplitsOff (bytes_of_words words.now) r.0 (bytes_of_words r.1.now)) }
    ensures complete { (steps : ℕ) (back : List (List ℕ))
        → SplitsOff (bytes_of_words words.now) steps back
        → IsSomeAnd result (λ r. (r.0 ≡ steps) × (bytes_of_words r.1.now ≡ back)) }
{
    let Some((word, rest)) = words.split_first() else {
        return Some((DEFAULT_STEPS, words));
    };
    if word.as_str() == "--steps" {
        let (text, back) = rest.split_first()?;
        return Some((number_of(text.as_bytes(), MOST_STEPS)?, back));
    }
    let text = word.as_bytes().strip_prefix(b"--steps=")?;
    Some((number_of(text, MOST_STEPS)?, rest))
}

/// The command whose row these words are.
fn command_of(front: &[String], back: &[String]) -> Option<Command>
    ensures row { IfSome result (IsRow (bytes_of_words front.now ++ bytes_of_words back.now)) }
    ensures complete { (command : Command)
        → IsRow (bytes_of_words front.now ++ bytes_of_words back.now) command
        → result ≡ Some command }
{
    match front.split_first() {
        Some((name, rest)) => named_command(name, whole(rest, back)?),
        None => {
            let (name, rest) = back.split_first()?;
            named_command(name, rest)
        }
    }
}

/// The words of both parts, where one part has none.
fn whole<'a>(front: &'a [String], back: &'a [String]) -> Option<&'a [String]>
    ensures all { IfSome result (λ all.
        bytes_of_words all.now ≡ bytes_of_words front.now ++ bytes_of_words back.now) }
    ensures front { IfNone result (0 < length front.now) }
    ensures back { IfNone result (0 < length back.now) }
{
    if front.is_empty() {
        Some(back)
    } else if back.is_empty() {
        Some(front)
    } else {
        None
    }
}

/// The command whose row is the name and these words.
fn named_command(name: &String, words: &[String]) -> Option<Command>
    ensures row { IfSome result (IsRow (string_bytes name.now ∷ bytes_of_words words.now)) }
    ensures complete { (command : Command)
        → IsRow (string_bytes name.now ∷ bytes_of_words words.now) command
        → result ≡ Some command }
{
    match words.split_first() {
        None => plain_command(name.as_str()),
        Some((number, rest)) => {
            if name.as_str() != "bench" || !rest.is_empty() {
                return None;
            }
            Some(Command::Bench(number_of(number.as_bytes(), MOST_BENCH)? as u32))
        }
    }
}
