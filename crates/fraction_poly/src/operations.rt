//! How two drafts are put together.

/// What is made of two drafts.
#[derive(Clone, Copy, Debug, PartialEq, Eq)]
pub enum Operation {
    /// The sum of both.
    Sum,
    /// The first less the second.
    Difference,
    /// The product of both.
    Product,
}
