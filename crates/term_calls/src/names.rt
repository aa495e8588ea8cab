ghost use Rattle.std.specs.Prelude.{◌≡◌};
ghost use Rattle.term_calls.specs.Names.{function_name, row_function as function_named, other_name, other_function as other_named, other_callee, callee};

use na_expr::ExprFn;
use scalar_value::ColType;

/// What the name of a call in an expression stands for: a row function, `as.Date`, an aggregate or window call, a function
/// that is left out, or no function.
#[derive(Debug, Clone, Copy, PartialEq, Eq)]
pub enum Callee {
    Row(ExprFn),
    AsDate,
    Grouped,
    LeftOut,
    Unknown,
}

/// The functions of R, dplyr and its kin that are no row functions of a script, but are known.
#[derive(Debug, Clone, Copy, PartialEq, Eq)]
pub enum OtherName {
    AsDate,
    Count,
    Sum,
    Mean,
    Min,
    Max,
    Distinct,
    Any,
    All,
    First,
    Last,
    RowNumber,
    Lag,
    Lead,
    Cumsum,
    MinRank,
    DenseRank,
    Median,
    Quantile,
    Var,
    Sd,
    Round,
}

const ROW_FUNCTIONS: [ExprFn; 20] = [
    ExprFn::IsNa,
    ExprFn::IfElse(ColType::Lgl),
    ExprFn::CaseWhen(ColType::Lgl),
    ExprFn::Coalesce(ColType::Lgl),
    ExprFn::Between,
    ExprFn::Abs,
    ExprFn::NChar,
    ExprFn::Substr,
    ExprFn::ToUpper,
    ExprFn::ToLower,
    ExprFn::StartsWith,
    ExprFn::EndsWith,
    ExprFn::Paste0,
    ExprFn::Year,
    ExprFn::Month,
    ExprFn::Day,
    ExprFn::Wday,
    ExprFn::AsInteger,
    ExprFn::AsNumeric,
    ExprFn::AsCharacter,
];

const OTHER_NAMES: [OtherName; 22] = [
    OtherName::AsDate,
    OtherName::Count,
    OtherName::Sum,
    OtherName::Mean,
    OtherName::Min,
    OtherName::Max,
    OtherName::Distinct,
    OtherName::Any,
    OtherName::All,
    OtherName::First,
    OtherName::Last,
    OtherName::RowNumber,
    OtherName::Lag,
    OtherName::Lead,
    OtherName::Cumsum,
    OtherName::MinRank,
    OtherName::DenseRank,
    OtherName::Median,
    OtherName::Quantile,
    OtherName::Var,
    OtherName::Sd,
    OtherName::Round,
];

/// How a row function is written; nothing for an operator.
fn spelled(function: ExprFn) -> &'static str
    ensures { result.now ≡ function_name function }
{
    match function {
        ExprFn::IsNa => "is.na",
        ExprFn::IfElse(_) => "if_else",
        ExprFn::CaseWhen(_) => "case_when",
        ExprFn::Coalesce(_) => "coalesce",
        ExprFn::Between => "between",
        ExprFn::Abs => "abs",
        ExprFn::NChar => "nchar",
        ExprFn::Substr => "substr",
        ExprFn::ToUpper => "toupper",
        ExprFn::ToLower => "tolower",
        ExprFn::StartsWith => "startsWith",
        ExprFn::EndsWith => "endsWith",
        ExprFn::Paste0 => "paste0",
        ExprFn::Year => "year",
        ExprFn::Month => "month",
        ExprFn::Day => "day",
        ExprFn::Wday => "wday",
        ExprFn::AsInteger => "as.integer",
        ExprFn::AsNumeric => "as.numeric",
        ExprFn::AsCharacter => "as.character",
        _ => "",
    }
}

impl OtherName {
    /// How the function is written.
    fn spelled(self) -> &'static str
        ensures { result.now ≡ other_name self }
    {
        match self {
            OtherName::AsDate => "as.Date",
            OtherName::Count => "n",
            OtherName::Sum => "sum",
            OtherName::Mean => "mean",
            OtherName::Min => "min",
            OtherName::Max => "max",
            OtherName::Distinct => "n_distinct",
            OtherName::Any => "any",
            OtherName::All => "all",
            OtherName::First => "first",
            OtherName::Last => "last",
            OtherName::RowNumber => "row_number",
            OtherName::Lag => "lag",
            OtherName::Lead => "lead",
            OtherName::Cumsum => "cumsum",
            OtherName::MinRank => "min_rank",
            OtherName::DenseRank => "dense_rank",
            OtherName::Median => "median",
            OtherName::Quantile => "quantile",
            OtherName::Var => "var",
            OtherName::Sd => "sd",
            OtherName::Round => "round",
        }
    }

    /// What the name stands for where it is called.
    fn callee(self) -> Callee
        ensures { result ≡ other_callee self }
    {
        match self {
            OtherName::AsDate => Callee::AsDate,
            OtherName::Median
            | OtherName::Quantile
            | OtherName::Var
            | OtherName::Sd
            | OtherName::Round => Callee::LeftOut,
            _ => Callee::Grouped,
        }
    }
}

fn row_function(name: &str) -> Option<ExprFn>
    ensures { result ≡ function_named name.now }
{
    ROW_FUNCTIONS
        .iter()
        .copied()
        .find(|function| name == spelled(*function))
}

fn other_function(name: &str) -> Option<OtherName>
    ensures { result ≡ other_named name.now }
{
    OTHER_NAMES
        .iter()
        .copied()
        .find(|other| name == other.spelled())
}

#[tactic(auto, unfolding(crate::specs::Names::callee))]
/// What a name stands for where it is called in an expression: the row functions of R and dplyr that a script may use,
/// the aggregates and window calls, and those that are left out. Another name is no function.
pub fn callee_named(name: &str) -> Callee
    ensures { result ≡ callee name.now }
{
    match (row_function(name), other_function(name)) {
        (Some(function), _) => Callee::Row(function),
        (None, Some(other)) => other.callee(),
        (None, None) => Callee::Unknown,
    }
}
