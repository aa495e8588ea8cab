//! Whether a left and a right row match by their keys. Values are compared where they stand, and no key is built.
ghost use Rattle.std.specs.Prelude.{◌≡◌, slice_get};
ghost use Rattle.std.specs.List.{list_any};
ghost use Rattle.row_table.specs.Keys.{is_missing as missing_value, rows_match as match_by};
ghost use Rattle.plan_nodes.specs.Kinds.{matching};
ghost use Rattle.hash_join.specs.Matches.{found_match};

use plan_nodes::JoinSpec;
use row_table::Row;
use scalar_value::Value;

fn is_missing(value: &Value) -> bool
    ensures { result ≡ missing_value value.now }
{
    matches!(value, Value::Missing)
}

// A column that a row doesn't have counts as a missing value.
fn columns_match(na_match: bool, x: &Row, left: u32, y: &Row, right: u32) -> bool
    ensures { result ≡ found_match na_match (slice_get x.now left) (slice_get y.now right) }
{
    match (x.get(left as usize), y.get(right as usize)) {
        (Some(v), Some(w)) => *v == *w && (na_match || !is_missing(v)),
        (Some(v), None) => na_match && is_missing(v),
        (None, Some(w)) => na_match && is_missing(w),
        (None, None) => na_match,
    }
}

/// Whether the values of all pairs of key columns are equal, and none is missing unless missing values match.
pub(crate) fn rows_match(spec: &JoinSpec, x: &Row, y: &Row) -> bool
    ensures { result ≡ match_by (matching spec.now) x.now y.now }
{
    let left = spec.left_keys.as_slice();
    let right = spec.right_keys.as_slice();
    if left.len() != right.len() {
        return false;
    }
    for k in 0..left.len() {
        if !columns_match(spec.na_match, x, left[k], y, right[k]) {
            return false;
        }
    }
    true
}

/// Whether a left row matches one of these right rows.
pub(crate) fn has_match(spec: &JoinSpec, x: &Row, built: &[Row]) -> bool
    ensures { result ≡ list_any (match_by (matching spec.now) x.now) built.now }
{
    built.iter().any(|y| rows_match(spec, x, y))
}

/// Whether a right row matches one of these left rows.
pub(crate) fn is_matched(spec: &JoinSpec, y: &Row, streamed: &[Row]) -> bool
    ensures { result ≡ list_any (λ x. match_by (matching spec.now) x y.now) streamed.now }
{
    streamed.iter().any(|x| rows_match(spec, x, y))
}
