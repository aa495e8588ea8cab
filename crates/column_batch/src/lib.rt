//! Batches: runs of rows with the types of their columns and, in an ordered stream, their index.
#![tactic(auto)]

mod batch;
mod laws;

pub use batch::Batch;
pub use laws::{fits_by_kinds, fits_parts};

#[cfg(test)]
mod tests;
