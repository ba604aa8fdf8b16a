//! The conditions and the goals of a program, made from the program alone, and its truth over
//! placements.
#![tactic(auto)]

mod condition_items;
mod condition_list;
mod condition_sources;
mod conditions;
mod goal_items;
mod goal_list;
pub mod interning;
mod item_terms;
mod items;
pub mod laws;
mod problem;
mod program_conditions;
mod program_items;
mod relation_items;
mod renaming;
mod term_set;

pub use condition_items::condition_text;
pub use condition_list::ConditionList;
pub use conditions::{Condition, ListedCondition};
pub use items::{Conditions, Goals, Item};
pub use problem::{Problem, list};
pub use program_conditions::{list_program, next_point};
pub use program_items::list_items;
pub use relation_items::relation_item;
pub use renaming::{point_at, rename_terms};
pub use term_set::TermSet;
