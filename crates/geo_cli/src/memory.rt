//! The memory that the process keeps.

use std::alloc::Global;

/// The C library learns from blocks of at most 32 MiB, of which it takes some bytes for itself.
const BLOCK: usize = 31 << 20;

/// Asks for a large block and lets it go untouched. By the size of such a block the C library tells how
/// much freed memory to keep for later: else it gives large blocks back to the system again and again,
/// and gets them anew page by page. Where there is no such block all goes on without; nothing rests on
/// it but time.
pub(crate) fn keep_freed_memory(alloc: Global) {
    let _ = Vec::<u8>::with_capacity(alloc, BLOCK);
}
