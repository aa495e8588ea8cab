//! The operators that give rows for each batch and keep none: filter and project.
#![tactic(auto)]

mod filter;
mod part;
mod project;

pub use filter::FilterOp;
pub use part::NoPart;
pub use project::ProjectOp;

#[cfg(test)]
mod tests;
