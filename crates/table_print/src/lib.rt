//! A table as text: CSV, and with aligned columns.
#![tactic(auto)]

mod aligned;
mod cells;
mod column;
mod csv_text;

pub use aligned::write_aligned;
pub use csv_text::write_csv;

#[cfg(test)]
mod tests;
