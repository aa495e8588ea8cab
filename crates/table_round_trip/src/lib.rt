//! What is printed as a file is read back: the law that ties the two ends of a table's life, and the call that does both.
#![tactic(auto)]

mod laws;
mod rereading;

pub use laws::printed_is_read;
pub use rereading::reread;

#[cfg(test)]
mod tests;
