//! The tokens of a script, with the bytes that each stands on, or its first fault; and a place as line and column.
#![tactic(auto)]

mod alphabet;
mod laws;
mod name;
mod number;
mod piece;
mod place;
mod scanner;
mod spelling;
#[cfg(test)]
mod tests;
mod text;
mod token;

pub use laws::tokens_are_read;
pub use place::place_of;
pub use scanner::scan;
pub use token::{Oper, Place, Reserved, ScanFault, ScanKind, Token, TokenKind};
