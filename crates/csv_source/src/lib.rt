//! Typed tables from the bytes of CSV files.
#![tactic(auto)]

mod fault;
mod header;
mod laws;
mod row;
mod table;
mod value;

pub use fault::{TableFault, TableKind};
pub use laws::records_are_all;
pub use table::read_table;

#[cfg(test)]
mod tests;
