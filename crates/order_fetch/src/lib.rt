//! The operators that gather their input and give it in order, part by part: fetch and the sink.
#![tactic(auto)]

mod fetch;
mod gather;
mod sink;

pub use fetch::FetchOp;
pub use gather::Gathered;
pub use sink::SinkOp;

#[cfg(test)]
mod tests;
