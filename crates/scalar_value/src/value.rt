ghost use Rattle.std.specs.Prelude.{◌≡◌, IfOk};
ghost use Rattle.std.specs.Ordering.{int_cmp, as_partial_cmp};
ghost use Rattle.std.specs.Cmp.{partial_order_from_total};
ghost use Rattle.std.specs.Hash as fed;
ghost use Rattle.std.proofs.Common.{rules};
ghost use Rattle.std.specs.Cmp.Rules.{comparing, hashing};
ghost use Rattle.scalar_value.specs.OrderLaws.{value_cmp-total, value_same-equivalence, value_same-partial, value_hash-alike};
ghost use Rattle.scalar_value.specs.Order.{value_rank, value_cmp, value_same, value_hash, IsNumber, number_of};

use crate::dec6::Dec6;
use crate::duplicate::Duplicate;
use crate::memory::Mem;
use crate::text::Text;
use std::cmp::Ordering;
use std::hash::{Hash, Hasher};

/// The type of a column: whole numbers of 64 bits, decimals of six digits, texts, days and truth values.
#[derive(Debug, Clone, Copy, PartialEq, Eq)]
pub enum ColType {
    Int,
    Dec,
    Chr,
    Date,
    Lgl,
}

/// A value of a table. A missing value is R's `NA`; a day is counted from 1970-01-01.
#[derive(Debug, Drop)]
pub enum Value {
    Missing,
    Int(i64),
    Dec(Dec6),
    Chr(Text),
    Day(i32),
    Lgl(bool),
}

impl Value {
    /// The order of values: those of one type by number, bytes, day, or FALSE before TRUE;
    /// those of different types in the order of the variants; a missing value after all.
    pub fn cmp_total(&self, other: &Value) -> Ordering
        ensures { result ≡ value_cmp self.now other.now }
    {
        match (self, other) {
            (Value::Int(a), Value::Int(b)) => a.cmp(b),
            (Value::Dec(a), Value::Dec(b)) => a.cmp(b),
            (Value::Chr(a), Value::Chr(b)) => a.cmp(b),
            (Value::Day(a), Value::Day(b)) => a.cmp(b),
            (Value::Lgl(a), Value::Lgl(b)) => a.cmp(b),
            _ => self.rank().cmp(&other.rank()),
        }
    }

    fn rank(&self) -> u8
        ensures { result ≡ value_rank self.now }
    {
        match self {
            Value::Int(_) => 0,
            Value::Dec(_) => 1,
            Value::Chr(_) => 2,
            Value::Day(_) => 3,
            Value::Lgl(_) => 4,
            Value::Missing => 5,
        }
    }

    /// An equal value.
    pub fn copy(&self) -> Mem<Value>
        ensures { IfOk result (λ v. v ≡ self.now) }
    {
        match self {
            Value::Missing => Ok(Value::Missing),
            Value::Int(number) => Ok(Value::Int(*number)),
            Value::Dec(number) => Ok(Value::Dec(*number)),
            Value::Chr(text) => Ok(Value::Chr(text.copy()?)),
            Value::Day(day) => Ok(Value::Day(*day)),
            Value::Lgl(truth) => Ok(Value::Lgl(*truth)),
        }
    }
}

impl Duplicate for Value {
    fn duplicate(&self) -> Mem<Value> {
        self.copy()
    }
}

impl PartialEq for Value {
    ghost eq = { value_same };

    ghost laws = { value_same-partial };

    fn eq(&self, other: &Value) -> bool {
        self.cmp_total(other) == Ordering::Equal
    }
}

impl Eq for Value {
    ghost laws = { value_same-equivalence };
}

impl PartialOrd for Value {
    ghost partial_cmp = { as_partial_cmp value_cmp };

    ghost laws = { partial_order_from_total value_cmp-total };

    fn partial_cmp(&self, other: &Value) -> Option<Ordering> {
        Some(self.cmp_total(other))
    }
}

impl Ord for Value {
    ghost cmp = { value_cmp };

    ghost total = { value_cmp-total };

    ghost matches_partial_cmp = { Prim.search (comparing, rules) };

    ghost matches_eq = { Prim.search (comparing, rules) };

    fn cmp(&self, other: &Value) -> Ordering {
        self.cmp_total(other)
    }
}

impl Hash for Value {
    ghost hash_input = { value_hash };

    ghost respects_eq = { value_hash-alike.fed };

    fn hash<H: Hasher>(&self, state: &mut H) {
        state.write_u8(self.rank());
        match self {
            Value::Int(number) => number.hash(state),
            Value::Dec(number) => number.hash(state),
            Value::Chr(text) => text.hash(state),
            Value::Day(day) => day.hash(state),
            Value::Lgl(truth) => truth.hash(state),
            Value::Missing => {}
        }
    }
}

/// The order of two numbers by their exact size: a whole number beside a decimal stands for its own value.
pub fn num_cmp(a: &Value, b: &Value) -> Ordering
    requires left { IsNumber a.now }
    requires right { IsNumber b.now }
    ensures { result ≡ int_cmp (number_of a.now) (number_of b.now) }
{
    match (a, b) {
        (Value::Int(x), Value::Int(y)) => x.cmp(y),
        (Value::Dec(x), Value::Dec(y)) => x.cmp(y),
        (Value::Int(x), Value::Dec(y)) => (i128::from(*x) * 1_000_000).cmp(&i128::from(
            y.millionths(),
        )),
        (Value::Dec(x), Value::Int(y)) => i128::from(x.millionths()).cmp(
            &(i128::from(*y) * 1_000_000),
        ),
        _ => unreachable!(),
    }
}
