ghost use Rattle.std.specs.Prelude.{◌≡◌, Bool, Option, IfOk, unwrap_or};
ghost use Rattle.std.specs.List.{list_any};
ghost use Rattle.std.specs.Option.{option_copied};
ghost use Rattle.scalar_value.specs.Truths.{is_missing as missing, is_true as true_value, is_false as false_value};
ghost use Rattle.agg_rules.specs.Lists.{unless_missing};
ghost use Rattle.agg_rules.specs.Aggregates.{agg, looked_at, count_value, any_value, all_value};

use crate::aggregate::{AggCall, AggKind};
use crate::distinct::distinct;
use crate::foremost::foremost;
use crate::sums::{int_of_count, mean, sum};
use scalar_value::{Mem, Value};
use std::alloc::Global;

/// Whether the value is missing.
pub fn is_missing(v: &Value) -> bool
    ensures { result ≡ missing v.now }
{
    matches!(v, Value::Missing)
}

fn is_true(v: &Value) -> bool
    ensures { result ≡ true_value v.now }
{
    matches!(v, Value::Lgl(true))
}

fn is_false(v: &Value) -> bool
    ensures { result ≡ false_value v.now }
{
    matches!(v, Value::Lgl(false))
}

fn has_true(values: &[Value]) -> bool
    ensures { result ≡ list_any true_value values.now }
{
    values.iter().any(|v| is_true(v))
}

fn has_false(values: &[Value]) -> bool
    ensures { result ≡ list_any false_value values.now }
{
    values.iter().any(|v| is_false(v))
}

/// Whether one of the values that are looked at is missing.
pub fn has_missing(na_rm: bool, values: &[Value]) -> bool
    ensures { result ≡ list_any missing (looked_at na_rm values.now) }
{
    !na_rm && values.iter().any(|v| is_missing(v))
}

/// The number of values.
fn count(values: &[Value]) -> Value
    ensures { result ≡ count_value values.now }
{
    int_of_count(values.len() as u64)
}

/// The truth value, but a missing value where one of the values that are looked at is missing.
fn truth(truth: bool, na_rm: bool, values: &[Value]) -> Value
    ensures { result ≡ unless_missing (looked_at na_rm values.now) (Value.Lgl truth) }
{
    if has_missing(na_rm, values) {
        Value::Missing
    } else {
        Value::Lgl(truth)
    }
}

/// `|` of all.
fn any(na_rm: bool, values: &[Value]) -> Value
    ensures { result ≡ any_value (looked_at na_rm values.now) }
{
    if has_true(values) {
        Value::Lgl(true)
    } else {
        truth(false, na_rm, values)
    }
}

/// `&` of all.
fn all(na_rm: bool, values: &[Value]) -> Value
    ensures { result ≡ all_value (looked_at na_rm values.now) }
{
    if has_false(values) {
        Value::Lgl(false)
    } else {
        truth(true, na_rm, values)
    }
}

/// A copy of the value, and a missing value where there is none.
pub fn value_or_missing(v: Option<&Value>) -> Mem<Value>
    ensures { IfOk result (λ w. w ≡ unwrap_or (option_copied v.entry) Value.Missing) }
{
    match v {
        Some(value) => value.copy(),
        None => Ok(Value::Missing),
    }
}

#[tactic(auto, unfolding(crate::specs::Aggregates::min_value, crate::specs::Aggregates::max_value, crate::specs::Aggregates::first_value, crate::specs::Aggregates::last_value))]
/// The value of an aggregate on the whole list of its argument's values, as dplyr's summaries give it. A sum and a mean
/// are exact and then tested for their range once; a mean is rounded half away from zero. Nothing is asked of the values:
/// where some are of another type than the call's `arg_type` they count as 0 in a sum, and are compared in the order of
/// values of different types. Only want of memory is refused: for a text that is copied, and for telling values apart.
pub fn agg_value(alloc: Global, call: &AggCall, values: &[Value]) -> Mem<Value>
    ensures { IfOk result (λ v. v ≡ agg call.now values.now) }
{
    let (kind, na_rm) = (call.arg_type, call.na_rm);
    match call.kind {
        AggKind::Count => Ok(count(values)),
        AggKind::Sum => Ok(sum(kind, na_rm, values)),
        AggKind::Mean => Ok(mean(kind, na_rm, values)),
        AggKind::Min => foremost(false, na_rm, values),
        AggKind::Max => foremost(true, na_rm, values),
        AggKind::Distinct => distinct(alloc, na_rm, values),
        AggKind::Any => Ok(any(na_rm, values)),
        AggKind::All => Ok(all(na_rm, values)),
        AggKind::First => value_or_missing(values.first()),
        AggKind::Last => value_or_missing(values.last()),
    }
}
