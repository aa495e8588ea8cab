//! The rules of aggregates and window values: their types, and their values as statements on whole lists.
#![tactic(auto)]

mod aggregate;
mod distinct;
mod foremost;
mod sums;
mod value;
mod window;

pub use aggregate::{AggCall, AggKind, agg_type};
pub use value::agg_value;
pub use window::WindowKind;

#[cfg(test)]
mod tests;
