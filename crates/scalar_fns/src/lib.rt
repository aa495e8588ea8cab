//! Functions on days and texts, and the text of a value.
#![tactic(auto)]

mod day;
mod texts;
mod written;

pub use day::{day_add, day_has_date, day_of, days_are_ordered, month, read_day, wday, year};
pub use texts::{chars, lower, substr, upper};
pub use written::write_value;

#[cfg(test)]
mod tests;
