ghost use Rattle.std.specs.Prelude.{◌≡◌, IfOk, map};
ghost use Rattle.term_calls.specs.Calls.{text_day};
ghost use Rattle.term_calls.specs.Pieces.{kind_of, type_as, expr_as, is_literal as literal, text_of, first_of_numbers, first_kind, needed_by};

use na_expr::Expr;
use scalar_fns::read_day;
use scalar_value::{ColType, Mem, Value};

/// A part of a script's expression.
///
/// `Na` is the word NA and `Free` another expression that missing values alone decide: both are always missing, and take
/// the type that is needed of them. `Number` is a number as it is written, and `Literal` another literal: a negative number,
/// a text, a truth value, a date, or a missing value with a type. `Typed` is any other expression, with its type.
#[derive(Debug, Drop)]
pub enum Piece {
    Na,
    Free,
    Number(Value, ColType),
    Literal(Value, ColType),
    Typed(Expr, ColType),
}

impl Piece {
    /// An equal part, or want of memory.
    pub fn copy(&self) -> Mem<Piece>
        ensures { IfOk result (λ made. made ≡ self.now) }
    {
        match self {
            Piece::Na => Ok(Piece::Na),
            Piece::Free => Ok(Piece::Free),
            Piece::Number(value, kind) => Ok(Piece::Number(value.copy()?, *kind)),
            Piece::Literal(value, kind) => Ok(Piece::Literal(value.copy()?, *kind)),
            Piece::Typed(expr, kind) => Ok(Piece::Typed(expr.copy()?, *kind)),
        }
    }

    /// The type of the part, and none of one that is free.
    pub fn kind(&self) -> Option<ColType>
        ensures { result ≡ kind_of self.now }
    {
        match self {
            Piece::Na | Piece::Free => None,
            Piece::Number(_, kind) | Piece::Literal(_, kind) | Piece::Typed(_, kind) => Some(*kind),
        }
    }

    /// The type of the part, where this one is needed of a free part.
    pub fn kind_as(&self, wanted: ColType) -> ColType
        ensures { result ≡ type_as wanted self.now }
    {
        match self.kind() {
            Some(kind) => kind,
            None => wanted,
        }
    }

    /// The expression of the part, where this type is needed of a free part.
    pub fn into_expr(self, wanted: ColType) -> Expr
        ensures { result ≡ expr_as wanted self }
    {
        match self {
            Piece::Na | Piece::Free => Expr::Lit(Value::Missing, wanted),
            Piece::Number(value, kind) | Piece::Literal(value, kind) => Expr::Lit(value, kind),
            Piece::Typed(expr, _) => expr,
        }
    }

    /// Whether the part is a literal.
    pub fn is_literal(&self) -> bool
        ensures { result ≡ literal self.now }
    {
        matches!(self, Piece::Na | Piece::Number(_, _) | Piece::Literal(_, _))
    }

    /// The day of a part that is a text as it is written: no day where the text is no date.
    pub fn day(&self) -> Option<Option<i32>>
        ensures { result ≡ text_day (text_of self.now) }
    {
        match self {
            Piece::Literal(Value::Chr(text), _) => Some(read_day(text.as_str())),
            _ => None,
        }
    }
}

/// The first type among whole numbers, decimals and dates that does where this one does.
fn first_number(kind: ColType) -> ColType
    ensures { result ≡ first_of_numbers kind }
{
    match kind {
        ColType::Dec => ColType::Int,
        _ => kind,
    }
}

/// The type that is needed of a free part, by the type of the first part that has one: that type, a whole number where it is
/// a decimal, and lgl where no part has one.
pub fn needed_beside(kind: Option<ColType>) -> ColType
    ensures { result ≡ needed_by kind }
{
    match kind {
        Some(kind) => first_number(kind),
        None => ColType::Lgl,
    }
}

/// The type of the first part that has one.
pub fn first_typed(pieces: &[Piece]) -> Option<ColType>
    ensures { result ≡ first_kind (map kind_of pieces.now) }
{
    for piece in pieces {
        if let Some(kind) = piece.kind() {
            return Some(kind);
        }
    }
    None
}
