//! The steps by which a script is read: what has been read behind one more token, or that the token is not the next of a
//! script. `verb_syntax` says by the grammar what the steps come to.
#![tactic(auto)]

mod frame;
mod rule;
mod state;
mod step;

pub use frame::{Frame, Frames};
pub use rule::rule_of;
pub use state::{Mode, Refused, State};
pub use step::{advanced, begun, ended};
