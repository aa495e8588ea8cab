//! What holds of the definitions that the contracts speak of, whatever the tables. These functions do nothing:
//! each is its contract.
ghost use Rattle.std.specs.Prelude.{◌≡◌, ℕ, List, min};
ghost use Rattle.std.specs.declared.cmp.Ordering.{Ordering};
ghost use Rattle.std.specs.declared.cmp.Ordering.TheVariants.{Equal};
ghost use Rattle.std.specs.Bool.{Decides};
ghost use Rattle.std.specs.Cmp.{IsTotalOrder};
ghost use Rattle.std.specs.List.Sorted.{IsSorted, IsStable};
ghost use Rattle.scalar_value.specs.declared.value.Value.{Value};
ghost use Rattle.row_table.specs.Keys.{different};
ghost use Rattle.row_table.specs.SameTables.{row_same, times, IsAsOften, SameTables, shown};
ghost use Rattle.row_table.specs.Sorting.{row_order, sorted_by, sorted_rows};
ghost use Rattle.row_table.specs.Tables.{TableValue};

/// The order of rows is total, and rows that tie are equal.
pub fn rows_in_order()
    ensures total { IsTotalOrder row_order }
    ensures ties_are_equal { (x y : List Value) → row_order x y ≡ Equal → x ≡ y }
    ensures same_rows_are_equal { (x y : List Value) → Decides (row_same x y) (x ≡ y) }
{}

/// Sorted rows ascend, each row stands among them as often as before, and there is one such list:
/// the canonical order depends on nothing but how often each row stands.
pub fn rows_sorted()
    ensures ascending { (rows : List (List Value)) → IsSorted row_order (sorted_rows rows) }
    ensures as_often { (rows : List (List Value)) → IsAsOften (sorted_rows rows) rows }
    ensures one_order { (xs ys : List (List Value)) → IsAsOften xs ys → sorted_rows xs ≡ sorted_rows ys }
    ensures no_other { (xs ys : List (List Value)) → IsAsOften ys xs → IsSorted row_order ys → ys ≡ sorted_rows xs }
{}

/// A list sorted by a total order ascends, those that tie keep their places, and there is one such list:
/// the one that a stable sort gives.
pub fn rows_sorted_by()
    ensures ascending { (order : List Value → List Value → Ordering) → IsTotalOrder order → (rows : List (List Value)) → IsSorted order (sorted_by order rows) }
    ensures ties_in_place { (order : List Value → List Value → Ordering) → IsTotalOrder order → (rows : List (List Value)) → IsStable order rows (sorted_by order rows) }
    ensures no_other { (order : List Value → List Value → Ordering) → IsTotalOrder order → (xs ys : List (List Value)) → IsSorted order ys → IsStable order xs ys → ys ≡ sorted_by order xs }
{}

/// To be the same table is an equivalence, and equal tables are the same.
pub fn tables_same()
    ensures itself { (t : TableValue) → SameTables t t }
    ensures turned { (x y : TableValue) → SameTables x y → SameTables y x }
    ensures chained { (x y z : TableValue) → SameTables x y → SameTables y z → SameTables x z }
{}

/// A table is the same as the one that is shown of it, and of the same tables equal ones are shown:
/// with equal rows in equal order.
pub fn tables_shown()
    ensures the_same { (t : TableValue) → SameTables t (shown t) }
    ensures equal { (x y : TableValue) → SameTables x y → shown x ≡ shown y }
{}

/// Among the different keys stands each key once, and no other.
pub fn keys_different()
    ensures { (list : List (List Value)) (key : List Value) → times key (different list) ≡ min (times key list) 1 }
{}
