ghost use Rattle.std.specs.Prelude.{◌≡◌, Bool, Option, None, IfOk, unwrap_or, filter};
ghost use Rattle.std.specs.List.{fold};
ghost use Rattle.std.specs.Option.{option_copied};
ghost use Rattle.scalar_value.specs.Truths.{is_there};
ghost use Rattle.agg_rules.specs.Lists.{comes_before as before, foremost as foremost_value};
ghost use Rattle.agg_rules.specs.Running.{foremost_after};
ghost use Rattle.agg_rules.specs.Aggregates.{looked_at};
ghost use Rattle.agg_rules.specs.Lists.{unless_missing};

use crate::value::{has_missing, is_missing, value_or_missing};
use scalar_value::{Mem, Value};
use std::cmp::Ordering;

/// Whether a value comes before another: the smaller one, or the greater one where the order is descending.
fn comes_before(descending: bool, a: &Value, b: &Value) -> bool
    ensures { result ≡ before descending a.now b.now }
{
    if descending {
        b.cmp_total(a) == Ordering::Less
    } else {
        a.cmp_total(b) == Ordering::Less
    }
}

/// The value that comes first of those so far and one more, which is passed over where it is missing.
fn next_foremost<'a>(descending: bool, first: Option<&'a Value>, v: &'a Value) -> Option<&'a Value>
    ensures { option_copied result ≡ foremost_after descending (option_copied first.entry) v.now }
{
    if is_missing(v) {
        return first;
    }
    match first {
        Some(best) => {
            if comes_before(descending, v, best) {
                Some(v)
            } else {
                Some(best)
            }
        }
        None => Some(v),
    }
}

/// The value that comes first of those that are there, and none of nothing.
fn foremost_there(descending: bool, values: &[Value]) -> Option<&Value>
    ensures { option_copied result ≡ fold (foremost_after descending) None values.now }
{
    let mut first = None;
    for v in values {
        first = next_foremost(descending, first, v);
    }
    first
}

/// The smallest value, or the greatest where the order is descending; missing of nothing and where a value is.
pub fn foremost(descending: bool, na_rm: bool, values: &[Value]) -> Mem<Value>
    ensures { IfOk result (λ v. v ≡ unless_missing (looked_at na_rm values.now) (foremost_value descending (looked_at na_rm values.now))) }
{
    if has_missing(na_rm, values) {
        return Ok(Value::Missing);
    }
    value_or_missing(foremost_there(descending, values))
}
