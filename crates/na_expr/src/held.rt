ghost use Rattle.std.specs.Prelude.{◌≡◌, IfOk};
ghost use Rattle.na_expr.specs.Holding.{held_value};
ghost use Rattle.na_expr.specs.Operators.{carried as carried_value};

use crate::operators::to_decimal;
use scalar_value::{ColType, Mem, Value};

/// A value that stands in a row or an expression, or one that was made.
#[derive(Drop)]
pub enum Held<'a> {
    There(&'a Value),
    Made(Value),
}

/// The value, to look at.
pub fn value_of<'b>(held: &'b Held<'_>) -> &'b Value
    ensures { result.now ≡ held_value held.now }
{
    match held {
        Held::There(value) => value,
        Held::Made(value) => value,
    }
}

/// The value, copied where it stands elsewhere.
pub fn owned(held: Held<'_>) -> Mem<Value>
    ensures { IfOk result (λ v. v ≡ held_value held.entry) }
{
    match held {
        Held::There(value) => value.copy(),
        Held::Made(value) => Ok(value),
    }
}

/// A chosen value as one of the type that the choice has.
pub fn carried<'a>(kind: ColType, held: Held<'a>) -> Held<'a>
    ensures { held_value result ≡ carried_value kind (held_value held.entry) }
{
    match (kind, value_of(&held)) {
        (ColType::Dec, Value::Int(_)) => Held::Made(to_decimal(value_of(&held))),
        _ => held,
    }
}
