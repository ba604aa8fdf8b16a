//! Moves: variables of a polynomial are replaced at once, by rows of the lemma table.
#![tactic(auto)]

mod applying;
mod capped;
mod drafted;
mod errors;
mod kept_row;
mod kept_rows;
mod kept_shares;
mod known_rows;
pub mod laws;
mod limits;
mod made;
mod numbered;
mod replacing;
mod share;
mod shares;
mod sizes;
mod small_shares;
mod starting;
mod variables;

pub use applying::{apply, apply_known};
pub use errors::ApplyError;
pub use geo_logs::{Move, Replacement, RowList};
pub use kept_rows::KnownRows;
pub use replacing::replacement_of;
pub use starting::{start, start_uncounted};
