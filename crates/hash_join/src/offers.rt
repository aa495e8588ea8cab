//! What left rows give with the right rows, offered to a window row by row.
ghost use Rattle.std.specs.Prelude.{◌≡◌, ◌∷◌, ◌++◌, [], cond, map, IfOk, OnOk};
ghost use Rattle.std.specs.List.{filter, list_any};
ghost use Rattle.row_table.specs.Keys.{rows_match as match_by};
ghost use Rattle.plan_nodes.specs.Kinds.{matching};
ghost use Rattle.hash_join.specs.Windows.{offers};
ghost use Rattle.hash_join.specs.Given.{given_row, given_rows};

use crate::matches::{has_match, rows_match};
use crate::window::Window;
use plan_nodes::JoinSpec;
use row_table::{JoinKind, Row};
use scalar_value::{Mem, Value};

fn offer_match(window: &mut Window, spec: &JoinSpec, x: &Row, y: &Row) -> Mem<bool>
    ensures { IfOk result (λ hit. (hit ≡ match_by (matching spec.now) x.now y.now)
        × (window.new ≡ offers window.old (cond (match_by (matching spec.now) x.now y.now) ((x.now ++ y.now) ∷ []) []))) }
{
    if rows_match(spec, x, y) {
        window.offer(x.as_slice(), y.as_slice())?;
        return Ok(true);
    }
    Ok(false)
}

/// Offers a left row with each right row that matches it, and tells whether there is one.
fn offer_matches(window: &mut Window, spec: &JoinSpec, x: &Row, built: &[Row]) -> Mem<bool>
    ensures { IfOk result (λ any. (any ≡ list_any (match_by (matching spec.now) x.now) built.now)
        × (window.new ≡ offers window.old (map (λ y. x.now ++ y) (filter (match_by (matching spec.now) x.now) built.now)))) }
{
    let mut any = false;
    for y in built {
        any |= offer_match(window, spec, x, y)?;
    }
    Ok(any)
}

/// Offers a row where it is wanted.
fn offer_if(window: &mut Window, wanted: bool, x: &Row, rest: &[Value]) -> Mem<()>
    ensures { OnOk result (window.new ≡ offers window.old (cond wanted ((x.now ++ rest.now) ∷ []) [])) }
{
    if wanted {
        return window.offer(x.as_slice(), rest);
    }
    Ok(())
}

/// Offers what a left row gives. The values of `missing` stand for a right row that isn't there.
fn offer_row(
    window: &mut Window,
    spec: &JoinSpec,
    missing: &[Value],
    x: &Row,
    built: &[Row],
) -> Mem<()>
    ensures { OnOk result (window.new ≡ offers window.old (given_row spec.now.kind missing.now x.now (filter (match_by (matching spec.now) x.now) built.now))) }
{
    if window.more {
        return Ok(());
    }
    match spec.kind {
        JoinKind::Semi => offer_if(window, has_match(spec, x, built), x, &[]),
        JoinKind::Anti => offer_if(window, !has_match(spec, x, built), x, &[]),
        JoinKind::Inner | JoinKind::Right => {
            let _any = offer_matches(window, spec, x, built)?;
            Ok(())
        }
        JoinKind::Left | JoinKind::Full => {
            let any = offer_matches(window, spec, x, built)?;
            offer_if(window, !any, x, missing)
        }
    }
}

/// Offers what these left rows give, in their order.
pub(crate) fn offer_rows(
    window: &mut Window,
    spec: &JoinSpec,
    missing: &[Value],
    built: &[Row],
    rows: &[Row],
) -> Mem<()>
    ensures { OnOk result (window.new ≡ offers window.old (given_rows spec.now missing.now built.now rows.now)) }
{
    for x in rows {
        offer_row(window, spec, missing, x, built)?;
    }
    Ok(())
}
