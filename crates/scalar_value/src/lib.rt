//! The scalar values of a table, and the small owners of text and lists that every layer is built of.
//!
//! `Text` is seen by contracts as its bytes, `Seq` as a list and `Boxed` as what it holds, so a copy equals its source.
#![tactic(auto)]

mod arithmetic;
mod boxed;
mod dec6;
mod dec_text;
mod duplicate;
mod memory;
mod seq;
mod sizes;
mod text;
mod value;

pub use arithmetic::{NumOp, num, rounding_laws};
pub use boxed::Boxed;
pub use dec6::Dec6;
pub use duplicate::Duplicate;
pub use memory::{Mem, NoMemory, Or, Res};
pub use seq::Seq;
pub use text::Text;
pub use value::{ColType, Value, num_cmp};

#[cfg(test)]
mod tests;
