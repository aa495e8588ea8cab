//! Selections of columns, as tidyselect's: which columns a list of selectors chooses.
#![tactic(auto)]

mod names;
mod places;
mod selector;
mod terms;

pub use places::{
    all_places, is_among, place_of, with_column, with_columns, with_selector, without,
};
pub use selector::Selector;
pub use terms::selector_of;

#[cfg(test)]
mod tests;
