//! What a fetch counts of what it has folded: the rows that are there from the front on, without a gap. A batch joins the
//! runs that it touches, so a run ends where an index is missing.
ghost use Rattle.std.specs.Prelude.{◌≡◌, ◌↔◌, ◌<◌, ◌≤◌, ◌+◌, ◌^◌, ◌++◌, ◌∷◌, [], ℕ, List, length, Option, Some, None, IsTrue, false, IfSome, IfNone, OnOk, vec_capacity, slice_index_or};
ghost use Rattle.scalar_value.specs.declared.value.Value.{Value};
ghost use Rattle.plan_machine.specs.Batch.{Batch, key};
ghost use Rattle.plan_machine.specs.Enabled.{HasFront};
ghost use Rattle.fetch_counts.specs.declared.front.Run.{Run};
ghost use Rattle.fetch_counts.specs.Counts.{AreOfAll, AreBehind, Touch, IsApart, AreApart, FrontIs, IsJoined, IsFresh};

use crate::front::{Front, Run};
use scalar_value::Mem;
use std::alloc::Global;

/// A run that touches this one, so that no index is missing between the two.
fn touching(behind: &[Run], run: Run) -> Option<usize>
    ensures some { IfSome result (λ p. (p < length behind.now) × ((d : Run) → Touch run (slice_index_or behind.now p d))) }
    ensures none { IfNone result (IsApart run behind.now) }
{
    for place in 0..behind.len() {
        if run.from <= behind[place].upto && behind[place].from <= run.upto {
            return Some(place);
        }
    }
    None
}

/// Two runs that touch as one.
fn joined(run: Run, other: Run) -> Run
    ensures { IsJoined run other result }
{
    Run {
        from: run.from.min(other.from),
        upto: run.upto.max(other.upto),
        rows: run.rows.saturating_add(other.rows),
    }
}

/// The run with all those that touch it, which are taken out.
fn gather(behind: &mut Vec<Run>, run: Run) -> Run
    ensures counts { (all : List (ℕ × ℕ)) → AreOfAll (run ∷ behind.old.items) all → AreOfAll (result ∷ behind.new.items) all }
    ensures behind { (upto : ℕ) → AreBehind upto behind.old.items → AreBehind upto behind.new.items }
    ensures apart { IsApart result behind.new.items }
    ensures others { AreApart behind.old.items → AreApart behind.new.items }
    ensures length { length behind.new.items ≤ length behind.old.items }
    ensures capacity { vec_capacity behind.new ≡ vec_capacity behind.old }
{
    let mut run = run;
    while let Some(place) = touching(behind, run) {
        run = joined(run, behind.remove(place));
    }
    run
}

/// Counts a batch that was folded, by its index, 0 where it has none, and its number of rows.
pub fn note_folded(front: &mut Front, index: u64, rows: u64)
    requires { length front.old.behind.items < vec_capacity front.old.behind }
    ensures counts { (folded : List (Batch (List Value))) (b : Batch (List Value)) → FrontIs folded front.old → key b ≡ index → length b.rows ≡ rows → FrontIs (folded ++ b ∷ []) front.new }
    ensures length { length front.new.behind.items ≤ length front.old.behind.items + 1 }
    ensures capacity { vec_capacity front.new.behind ≡ vec_capacity front.old.behind }
    ensures wanted { front.new.wanted ≡ front.old.wanted }
{
    let from = u128::from(index);
    let upto = from + 1;
    let run = gather(&mut front.behind, Run { from, upto, rows });
    if run.from <= front.first.upto {
        front.first = joined(front.first, run);
    } else {
        front.behind.push_reserved(run);
    }
}

/// Whether a fetch has folded from the front on, without a gap, as many rows as it wants.
pub fn is_met(front: &Front) -> bool
    ensures fetch { (folded : List (Batch (List Value))) (wanted : ℕ) → front.now.wanted ≡ Some wanted → wanted < 2 ^ 64 → FrontIs folded front.now → IsTrue result ↔ HasFront folded wanted }
    ensures other { front.now.wanted ≡ None → result ≡ false }
{
    match front.wanted {
        Some(wanted) => front.first.rows >= wanted,
        None => false,
    }
}

/// What is counted before anything was folded.
pub fn front_of(alloc: Global, wanted: Option<u64>) -> Front
    ensures { IsFresh wanted result }
{
    Front {
        wanted,
        first: Run {
            from: 0,
            upto: 0,
            rows: 0,
        },
        behind: Vec::new(alloc),
    }
}

/// Makes room to count so many batches more. What is counted stays as it is.
pub fn reserve_front(front: &mut Front, more: usize) -> Mem<()>
    ensures wanted { front.new.wanted ≡ front.old.wanted }
    ensures first { front.new.first ≡ front.old.first }
    ensures behind { front.new.behind.items ≡ front.old.behind.items }
    ensures capacity { vec_capacity front.old.behind ≤ vec_capacity front.new.behind }
    ensures room { OnOk result (length front.new.behind.items + more ≤ vec_capacity front.new.behind) }
{
    front.behind.reserve(more)?;
    Ok(())
}
