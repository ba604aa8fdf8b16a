//! What a search answers.

ghost use Rattle.std.specs.Prelude.{◌≡◌};
ghost use Rattle.geo_discover.specs.Inner.Searching.{answer_of};

use crate::errors::DiscoverError;
use geo_chain::ProveError;

/// What is answered where the log of the first open candidate ends so.
pub(crate) fn answer_to(error: ProveError) -> DiscoverError
    ensures { result ≡ answer_of error }
{
    match error {
        ProveError::Spent { line } => DiscoverError::Spent { line },
        ProveError::TooLarge { line, which } => DiscoverError::TooLarge { line, which },
        ProveError::TooLong => DiscoverError::TooLong,
        ProveError::WriteFault => DiscoverError::WriteFault,
        ProveError::NoMemory => DiscoverError::NoMemory,
    }
}
