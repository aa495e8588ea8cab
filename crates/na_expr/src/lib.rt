//! Row expressions with missing values: their types and their values.
#![tactic(auto)]

mod calls;
mod eval;
mod expr;
mod held;
mod laws;
mod operators;
mod types;

pub use calls::{call_type, common_type};
pub use eval::eval_row;
pub use expr::{Expr, ExprFn, TypeFault};
pub use laws::values_are_typed;
pub use operators::negated;
pub use types::type_of;

#[cfg(test)]
mod tests;
