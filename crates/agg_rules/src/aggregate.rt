ghost use Rattle.std.specs.Prelude.{◌≡◌};
ghost use Rattle.agg_rules.specs.Aggregates.{type_of_agg};

use scalar_value::ColType;

/// The aggregates of dplyr's summaries: `n`, `sum`, `mean`, `min`, `max`, `n_distinct`, `any`, `all`, `first` and `last`.
#[derive(Debug, Clone, Copy, PartialEq, Eq)]
pub enum AggKind {
    Count,
    Sum,
    Mean,
    Min,
    Max,
    Distinct,
    Any,
    All,
    First,
    Last,
}

/// An aggregate of a column: the place of the column, the type of its values, and whether missing values are left out.
/// For `Count` the place is 0, and no field but the kind is looked at.
#[derive(Debug, Clone, Copy, PartialEq, Eq)]
pub struct AggCall {
    pub kind: AggKind,
    pub arg: u32,
    pub arg_type: ColType,
    pub na_rm: bool,
}

/// The type of an aggregate of values of this type, and none exactly where the aggregate does not take them.
pub fn agg_type(kind: AggKind, arg: ColType) -> Option<ColType>
    ensures { result ≡ type_of_agg kind arg }
{
    match kind {
        AggKind::Count | AggKind::Distinct => Some(ColType::Int),
        AggKind::Min | AggKind::Max | AggKind::First | AggKind::Last => Some(arg),
        AggKind::Sum => match arg {
            ColType::Int | ColType::Lgl => Some(ColType::Int),
            ColType::Dec => Some(ColType::Dec),
            ColType::Chr | ColType::Date => None,
        },
        AggKind::Mean => match arg {
            ColType::Int | ColType::Dec | ColType::Lgl => Some(ColType::Dec),
            ColType::Chr | ColType::Date => None,
        },
        AggKind::Any | AggKind::All => match arg {
            ColType::Lgl => Some(ColType::Lgl),
            _ => None,
        },
    }
}
