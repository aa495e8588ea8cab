//! Parts of expressions and the calls over them: what the name of a call stands for, and the part that an operator or a
//! function makes of others, or its fault.
#![tactic(auto)]

mod calls;
mod fault;
mod names;
mod piece;

pub use calls::{
    Part, agreement, between_parts, call_of, first_there, free_where, membership, of_one, of_three,
    of_two, operated, pasted,
};
pub use fault::{TermFault, TermFaultKind, fault_at};
pub use names::{Callee, callee_named};
pub use piece::{Piece, needed_beside};

#[cfg(test)]
mod tests;
