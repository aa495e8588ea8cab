ghost use Rattle.std.specs.Prelude.{◌≡◌, [], ◌∷◌, ◌&&◌, map, false, true, Some, None, Ok, Err, slice_get, if◌then◌else◌};
ghost use Rattle.scalar_value.specs.Order.{is_of_type};
ghost use Rattle.na_expr.specs.Evaluation.{takes_list as is_list_function};
ghost use Rattle.na_expr.specs.Types.{joined as joined_type, joining, agreed, among_type, coalesce_type, paste_type, case_type, case_seen, case_outcome, is_kind as same_kind, takes, typed, all_of, then_all, column_type as type_of_column, call_type, or_wrong_type, signed_type, number_type, then_test, carried_type};

use crate::expr::{Expr, ExprFn, TypeFault};
use row_table::Schema;
use scalar_value::{ColType, Value};

/// Whether a column of this type may hold the value.
fn fits(kind: ColType, v: &Value) -> bool
    ensures { result ≡ is_of_type kind v.now }
{
    match (kind, v) {
        (_, Value::Missing) => true,
        (ColType::Int, Value::Int(_)) => true,
        (ColType::Dec, Value::Dec(_)) => true,
        (ColType::Chr, Value::Chr(_)) => true,
        (ColType::Date, Value::Day(day)) => *day >= -719_528 && *day <= 2_932_896,
        (ColType::Lgl, Value::Lgl(_)) => true,
        _ => false,
    }
}

/// The type on which two types agree.
fn joined(a: ColType, b: ColType) -> Option<ColType>
    ensures { result ≡ joined_type a b }
{
    match (a, b) {
        (ColType::Int, ColType::Dec) | (ColType::Dec, ColType::Int) => Some(ColType::Dec),
        _ if a == b => Some(a),
        _ => None,
    }
}

/// The type on which those so far and one more agree.
pub fn join(so_far: Option<Option<ColType>>, kind: ColType) -> Option<Option<ColType>>
    ensures { result ≡ joining so_far kind }
{
    match so_far {
        Some(Some(before)) => Some(joined(before, kind)),
        Some(None) => Some(None),
        None => Some(Some(kind)),
    }
}

/// The type, and a wrong type where there is none.
fn or_wrong(kind: Option<ColType>) -> Result<ColType, TypeFault>
    ensures { result ≡ or_wrong_type kind }
{
    match kind {
        Some(kind) => Ok(kind),
        None => Err(TypeFault::WrongType),
    }
}

/// A number's own type.
fn number(kind: ColType) -> Option<ColType>
    ensures { result ≡ signed_type kind }
{
    match kind {
        ColType::Int | ColType::Dec => Some(kind),
        _ => None,
    }
}

/// The second type where the value has the first.
fn when(kind: ColType, wanted: ColType, given: ColType) -> Option<ColType>
    ensures { result ≡ (if same_kind kind wanted then Some given else None) }
{
    if kind == wanted { Some(given) } else { None }
}

/// The type of a function of one value.
pub fn one_type(function: ExprFn, a: ColType) -> Result<ColType, TypeFault>
    requires { is_list_function function ≡ false }
    ensures { result ≡ takes function (a ∷ []) }
{
    match function {
        ExprFn::Neg | ExprFn::Abs => or_wrong(number(a)),
        ExprFn::Not => or_wrong(when(a, ColType::Lgl, ColType::Lgl)),
        ExprFn::IsNa => Ok(ColType::Lgl),
        ExprFn::NChar => or_wrong(when(a, ColType::Chr, ColType::Int)),
        ExprFn::ToUpper | ExprFn::ToLower => or_wrong(when(a, ColType::Chr, ColType::Chr)),
        ExprFn::Year | ExprFn::Month | ExprFn::Day | ExprFn::Wday => {
            or_wrong(when(a, ColType::Date, ColType::Int))
        }
        ExprFn::AsInteger => match a {
            ColType::Int | ColType::Dec | ColType::Lgl => Ok(ColType::Int),
            _ => Err(TypeFault::WrongType),
        },
        ExprFn::AsNumeric => match a {
            ColType::Int | ColType::Dec => Ok(ColType::Dec),
            _ => Err(TypeFault::WrongType),
        },
        ExprFn::AsCharacter => Ok(ColType::Chr),
        _ => Err(TypeFault::WrongArguments),
    }
}

/// The type of a sum, a product or a remainder of numbers.
fn numbers(a: ColType, b: ColType) -> Option<ColType>
    ensures { result ≡ number_type a b }
{
    match (number(a), number(b)) {
        (Some(a), Some(b)) => joined(a, b),
        _ => None,
    }
}

/// The type of a function of two values.
pub fn two_type(function: ExprFn, a: ColType, b: ColType) -> Result<ColType, TypeFault>
    requires { is_list_function function ≡ false }
    ensures { result ≡ takes function (a ∷ b ∷ []) }
{
    match function {
        ExprFn::Add => match (a, b) {
            (ColType::Date, ColType::Int) | (ColType::Int, ColType::Date) => Ok(ColType::Date),
            _ => or_wrong(numbers(a, b)),
        },
        ExprFn::Sub => match (a, b) {
            (ColType::Date, ColType::Int) => Ok(ColType::Date),
            (ColType::Date, ColType::Date) => Ok(ColType::Int),
            _ => or_wrong(numbers(a, b)),
        },
        ExprFn::Mul | ExprFn::FloorDiv | ExprFn::Mod => or_wrong(numbers(a, b)),
        ExprFn::Div => match numbers(a, b) {
            Some(_) => Ok(ColType::Dec),
            None => Err(TypeFault::WrongType),
        },
        ExprFn::Eq | ExprFn::Ne | ExprFn::Lt | ExprFn::Le | ExprFn::Gt | ExprFn::Ge => {
            test_of(joined(a, b))
        }
        ExprFn::And | ExprFn::Or => match (a, b) {
            (ColType::Lgl, ColType::Lgl) => Ok(ColType::Lgl),
            _ => Err(TypeFault::WrongType),
        },
        ExprFn::StartsWith | ExprFn::EndsWith => match (a, b) {
            (ColType::Chr, ColType::Chr) => Ok(ColType::Lgl),
            _ => Err(TypeFault::WrongType),
        },
        _ => Err(TypeFault::WrongArguments),
    }
}

/// A truth value, where there is a type to compare.
pub fn test_of(kind: Option<ColType>) -> Result<ColType, TypeFault>
    ensures { result ≡ or_wrong_type (then_test kind) }
{
    match kind {
        Some(_) => Ok(ColType::Lgl),
        None => Err(TypeFault::WrongType),
    }
}

/// The type that a choice carries, where its values agree on it.
pub fn carried(kind: ColType, values: Option<ColType>) -> Result<ColType, TypeFault>
    ensures { result ≡ or_wrong_type (carried_type kind values) }
{
    match values {
        Some(values) => or_wrong(when(kind, values, kind)),
        None => Err(TypeFault::WrongType),
    }
}

/// The type of a function of three values.
pub fn three_type(
    function: ExprFn,
    a: ColType,
    b: ColType,
    c: ColType,
) -> Result<ColType, TypeFault>
    requires { is_list_function function ≡ false }
    ensures { result ≡ takes function (a ∷ b ∷ c ∷ []) }
{
    match function {
        ExprFn::IfElse(kind) => {
            if a == ColType::Lgl {
                carried(kind, joined(b, c))
            } else {
                Err(TypeFault::WrongType)
            }
        }
        ExprFn::Between => match (joined(a, b), joined(a, c)) {
            (Some(_), Some(_)) => Ok(ColType::Lgl),
            _ => Err(TypeFault::WrongType),
        },
        ExprFn::Substr => match (a, b, c) {
            (ColType::Chr, ColType::Int, ColType::Int) => Ok(ColType::Chr),
            _ => Err(TypeFault::WrongType),
        },
        _ => Err(TypeFault::WrongArguments),
    }
}

/// The type of a column.
fn column_type(schema: &Schema, at: u32) -> Result<ColType, TypeFault>
    ensures { result ≡ type_of_column (slice_get schema.now at) }
{
    match schema.get(at as usize) {
        Some(field) => Ok(field.kind),
        None => Err(TypeFault::UnknownColumn),
    }
}

#[cycle(typing)]
/// The type of an expression over these columns, or its first fault: those of inner parts before those of outer ones,
/// and from the left.
pub fn type_of(e: &Expr, schema: &Schema) -> Result<ColType, TypeFault>
    ensures { result ≡ typed schema.now e.now }
{
    match e {
        Expr::Col(at) => column_type(schema, *at),
        Expr::Lit(value, kind) => literal_type(*kind, value),
        Expr::Call(function, args) => type_of_args(*function, args.as_slice(), schema),
    }
}

/// The type of a literal, of which its value is.
fn literal_type(kind: ColType, value: &Value) -> Result<ColType, TypeFault>
    ensures { result ≡ (if is_of_type kind value.now then Ok kind else Err TypeFault.WrongType) }
{
    if fits(kind, value) {
        Ok(kind)
    } else {
        Err(TypeFault::WrongType)
    }
}

#[cycle(typing)]
/// The type of a call.
fn type_of_args(function: ExprFn, args: &[Expr], schema: &Schema) -> Result<ColType, TypeFault>
    ensures { result ≡ call_type (takes function) (all_of (map (typed schema.now) args.now)) }
{
    match function {
        ExprFn::IsIn => match agreement(args, schema)? {
            Some(kind) => test_of(kind),
            None => Err(TypeFault::WrongArguments),
        },
        ExprFn::Coalesce(carries) => match agreement(args, schema)? {
            Some(kind) => carried(carries, kind),
            None => Err(TypeFault::WrongArguments),
        },
        ExprFn::Paste0 => match agreement(args, schema)? {
            Some(_) => Ok(ColType::Chr),
            None => Err(TypeFault::WrongArguments),
        },
        ExprFn::CaseWhen(carries) => type_of_cases(carries, args, schema),
        _ => type_of_call(function, args, schema),
    }
}

#[cycle(typing)]
/// The type of a call of a function of one to three values.
fn type_of_call(function: ExprFn, args: &[Expr], schema: &Schema) -> Result<ColType, TypeFault>
    requires { is_list_function function ≡ false }
    ensures { result ≡ call_type (takes function) (all_of (map (typed schema.now) args.now)) }
{
    match args {
        [a] => one_type(function, type_of(a, schema)?),
        [a, b] => {
            let a = type_of(a, schema)?;
            two_type(function, a, type_of(b, schema)?)
        }
        [a, b, c] => {
            let (a, b) = (type_of(a, schema)?, type_of(b, schema)?);
            three_type(function, a, b, type_of(c, schema)?)
        }
        [] => Err(TypeFault::WrongArguments),
        [_, _, _, _, ..] => {
            agreement(args, schema)?;
            Err(TypeFault::WrongArguments)
        }
    }
}

#[cycle(typing)]
/// The type on which all arguments agree, or the first fault of one.
fn agreement(args: &[Expr], schema: &Schema) -> Result<Option<Option<ColType>>, TypeFault>
    ensures { result ≡ then_all agreed (all_of (map (typed schema.now) args.now)) }
{
    let mut so_far = None;
    for arg in args {
        so_far = join(so_far, type_of(arg, schema)?);
    }
    Ok(so_far)
}

/// Whether the conditions so far and one more are truth values.
pub fn still_truths(truths: bool, kind: ColType) -> bool
    ensures { result ≡ (truths && same_kind kind ColType.Lgl) }
{
    truths && matches!(kind, ColType::Lgl)
}

#[cycle(typing)]
/// Whether the conditions of a `case_when` are truth values, and the type on which its values agree.
fn case_parts(args: &[Expr], schema: &Schema) -> Result<(bool, Option<Option<ColType>>), TypeFault>
    ensures { result ≡ then_all (case_seen true None) (all_of (map (typed schema.now) args.now)) }
{
    let (mut truths, mut values) = (true, None);
    for at in 0..args.len() / 2 {
        let condition = type_of(&args[2 * at], schema)?;
        let value = type_of(&args[2 * at + 1], schema)?;
        truths = still_truths(truths, condition);
        values = join(values, value);
    }
    if args.len() % 2 == 0 {
        return Ok((truths, values));
    }
    let default = type_of(&args[args.len() - 1], schema)?;
    Ok((truths, join(values, default)))
}

/// The type of a `case_when` by its parts.
pub fn outcome(
    carries: ColType,
    truths: bool,
    values: Option<Option<ColType>>,
) -> Result<ColType, TypeFault>
    ensures { result ≡ case_outcome carries truths values }
{
    if !truths {
        return Err(TypeFault::WrongType);
    }
    match values {
        Some(kind) => carried(carries, kind),
        None => Err(TypeFault::WrongArguments),
    }
}

#[cycle(typing)]
/// The type of a `case_when`.
fn type_of_cases(carries: ColType, args: &[Expr], schema: &Schema) -> Result<ColType, TypeFault>
    ensures { result ≡ call_type (case_type carries) (all_of (map (typed schema.now) args.now)) }
{
    match args {
        [] => Err(TypeFault::WrongArguments),
        [default] => {
            type_of(default, schema)?;
            Err(TypeFault::WrongArguments)
        }
        [_, _, ..] => {
            let (truths, values) = case_parts(args, schema)?;
            outcome(carries, truths, values)
        }
    }
}
