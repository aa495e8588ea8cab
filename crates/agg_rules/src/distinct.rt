ghost use Rattle.std.specs.Prelude.{◌≡◌, ◌&&◌, IfOk};
ghost use Rattle.scalar_value.specs.Truths.{is_missing as missing};
ghost use Rattle.agg_rules.specs.Aggregates.{looked_at, distinct_value};

use crate::sums::int_of_count;
use crate::value::is_missing;
use scalar_value::{Mem, Value};
use std::alloc::Global;
use std::collections::HashSet;

/// Whether the value is left out.
fn is_passed_over(na_rm: bool, v: &Value) -> bool
    ensures { result ≡ (na_rm && missing v.now) }
{
    na_rm && is_missing(v)
}

/// The number of different values.
pub fn distinct(alloc: Global, na_rm: bool, values: &[Value]) -> Mem<Value>
    ensures { IfOk result (λ v. v ≡ distinct_value (looked_at na_rm values.now)) }
{
    let mut seen: HashSet<&Value> = HashSet::new(alloc);
    for v in values {
        if is_passed_over(na_rm, v) {
            continue;
        }
        seen.insert(v)?;
    }
    Ok(int_of_count(seen.len() as u64))
}
