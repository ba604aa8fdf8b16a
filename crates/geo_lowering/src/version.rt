//! How `weights` is lowered.

/// The version of a log, which decides how `weights` is lowered: in version 1 by a hidden point and two ratio steps, in
/// version 2 by a step of its own.
#[derive(Clone, Copy, Debug, PartialEq, Eq)]
pub enum Version {
    /// Version 1.
    One,
    /// Version 2.
    Two,
}
