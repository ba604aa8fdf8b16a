//! What is done with the lines of a log.

ghost use Rattle.std.specs.Prelude.{◌≡◌};
ghost use Rattle.geo_chain.specs.Sizes.{are_written, bytes_of};

/// What is done with the lines of a log.
#[derive(Clone, Copy, Debug, PartialEq, Eq)]
pub enum Size {
    /// They are written. The text so far has so many bytes.
    Written(u64),
    /// They are counted, and neither written nor measured.
    Counted,
    /// They are not written. The text so far has at most so many bytes.
    Bounded(u64),
}

/// How many bytes the text so far has, or has at most.
pub(crate) fn bytes_of(size: Size) -> u64
    ensures { result ≡ bytes_of size }
{
    match size {
        Size::Written(bytes) | Size::Bounded(bytes) => bytes,
        Size::Counted => 0,
    }
}

/// Whether the lines are written.
pub(crate) fn is_written(size: Size) -> bool
    ensures { result ≡ are_written size }
{
    match size {
        Size::Written(_) => true,
        Size::Counted | Size::Bounded(_) => false,
    }
}
