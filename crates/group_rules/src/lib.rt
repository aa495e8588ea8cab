//! The grouping columns of a table after a verb, as dplyr has them.
#![tactic(auto)]

mod groups;
mod laws;

pub use groups::{Dropping, GroupFault, add_by, after_rename, after_select, after_summarise};
pub use laws::{names_once, summarised_groups_differ};

#[cfg(test)]
mod tests;
