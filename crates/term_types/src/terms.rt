ghost use Rattle.std.specs.Prelude.{◌≡◌, ◌∷◌, [], Err, map, false};
ghost use Rattle.scalar_value.specs.Gives.{Gives};
ghost use Rattle.term_calls.specs.Faults.{and_then, all_of};
ghost use Rattle.term_types.specs.Parts.{parts_list};
ghost use Rattle.term_calls.specs.Calls.{function_call as functions_call, is_list_call};
ghost use Rattle.term_types.specs.Terms.{reading, called, argument, piece as piece_read, expression as expression_read, place_of as place_named, column_at, word_piece as word_read, negative as negative_read, signed as signed_read, operator as operator_named, part, behind_left as left_read, between_two as between_made, is_membership as membership_named, is_tilde as tilde_named, only_day as day_in, day_literal as day_made, plain_arguments as plain_read, plain_argument as plain_one, any_arguments, with_case as with_one_case, with_cases as with_all_cases, no_cases, row_call as row_called, date_call as date_called};

use crate::cases::{Cases, case_call};
use crate::parts::{Parts, pieces_of};
use na_expr::{Expr, ExprFn, negated};
use row_table::{Field, Schema};
use scalar_value::{ColType, Or, Res, Seq, Text, Value};
use std::alloc::Global;
use syntax_tree::{Arg, Call, Term, TermKind};
use term_calls::{
    Callee, Part, Piece, TermFault, TermFaultKind, between_parts, callee_named, fault_at,
    first_there, membership, of_one, of_three, of_two, operated, pasted,
};
use token_scan::{Oper, Reserved};

fn place_of(fields: &[Field], name: &Text) -> Option<usize>
    ensures { result ≡ place_named name.now fields.now }
{
    fields.iter().position(|field| field.name == *name)
}

#[tactic(auto, unfolding(crate::specs::Terms::column_at))]
/// The column of this name.
fn column(schema: &Schema, at: u32, name: &Text) -> Res<Piece, TermFault>
    ensures { Gives result (column_at schema.now at (place_named name.now schema.now)) }
{
    let Some(place) = place_of(schema.as_slice(), name) else {
        return Err(fault_at(TermFaultKind::UnknownColumn, at));
    };
    match (u32::try_from(place), schema.get(place)) {
        (Ok(column), Some(field)) => Ok(Piece::Typed(Expr::Col(column), field.kind)),
        _ => Err(Or::Memory),
    }
}

fn word_piece(word: Reserved) -> Piece
    ensures { result ≡ word_read word }
{
    match word {
        Reserved::True => Piece::Literal(Value::Lgl(true), ColType::Lgl),
        Reserved::False => Piece::Literal(Value::Lgl(false), ColType::Lgl),
        Reserved::Na => Piece::Na,
        Reserved::NaInteger => Piece::Literal(Value::Missing, ColType::Int),
        Reserved::NaReal => Piece::Literal(Value::Missing, ColType::Dec),
        Reserved::NaCharacter => Piece::Literal(Value::Missing, ColType::Chr),
    }
}

/// A number with its sign, or the negative of another part.
fn negative(alloc: Global, at: u32, operand: Piece) -> Res<Piece, TermFault>
    ensures { Gives result (negative_read at operand) }
{
    match operand {
        Piece::Number(value, kind) => Ok(Piece::Literal(negated(&value), kind)),
        other => of_one(alloc, at, ExprFn::Neg, other),
    }
}

#[tactic(auto, unfolding(crate::specs::Terms::signed))]
/// A part behind an operator of one value.
fn signed(alloc: Global, at: u32, oper: Oper, operand: Piece) -> Res<Piece, TermFault>
    ensures { Gives result (signed_read at oper operand) }
{
    match oper {
        Oper::Sub => negative(alloc, at, operand),
        Oper::Not => of_one(alloc, at, ExprFn::Not, operand),
        _ => Err(fault_at(TermFaultKind::WrongArguments, at)),
    }
}

/// The function of an operator between two values.
fn operator(oper: Oper) -> Option<ExprFn>
    ensures { result ≡ operator_named oper }
{
    match oper {
        Oper::Le => Some(ExprFn::Le),
        Oper::Ge => Some(ExprFn::Ge),
        Oper::Eq => Some(ExprFn::Eq),
        Oper::Ne => Some(ExprFn::Ne),
        Oper::Mod => Some(ExprFn::Mod),
        Oper::FloorDiv => Some(ExprFn::FloorDiv),
        Oper::Lt => Some(ExprFn::Lt),
        Oper::Gt => Some(ExprFn::Gt),
        Oper::Add => Some(ExprFn::Add),
        Oper::Sub => Some(ExprFn::Sub),
        Oper::Mul => Some(ExprFn::Mul),
        Oper::Div => Some(ExprFn::Div),
        Oper::And => Some(ExprFn::And),
        Oper::Or => Some(ExprFn::Or),
        _ => None,
    }
}

#[tactic(auto, unfolding(term_calls::specs::Calls::function_call))]
/// A call of a row function other than `case_when`.
fn function_call(
    alloc: Global,
    at: u32,
    function: ExprFn,
    parts: Seq<Part>,
) -> Res<Piece, TermFault>
    ensures { Gives result (functions_call at function parts) }
{
    match function {
        ExprFn::Coalesce(_) => first_there(alloc, at, pieces_of(alloc, parts)?),
        ExprFn::Paste0 => pasted(alloc, at, pieces_of(alloc, parts)?),
        _ => few_parts(alloc, at, function, Parts::of(alloc, parts)?),
    }
}

#[tactic(auto, unfolding(term_calls::specs::Calls::function_call))]
/// A call of a function of one to three values.
fn few_parts(alloc: Global, at: u32, function: ExprFn, parts: Parts) -> Res<Piece, TermFault>
    requires { is_list_call function ≡ false }
    ensures { Gives result (functions_call at function (parts_list parts)) }
{
    match parts {
        Parts::One(a) => of_one(alloc, at, function, a.1),
        Parts::Two(a, b) => of_two(alloc, at, function, a.1, b.1),
        Parts::Three(a, b, c) => three_parts(alloc, at, function, a, b, c),
        Parts::None => Err(fault_at(TermFaultKind::WrongArguments, at)),
        Parts::More(_, _, _, _, _) => Err(fault_at(TermFaultKind::WrongArguments, at)),
    }
}

#[tactic(auto, unfolding(term_calls::specs::Calls::function_call))]
/// A call of a function of three values.
fn three_parts(
    alloc: Global,
    at: u32,
    function: ExprFn,
    a: Part,
    b: Part,
    c: Part,
) -> Res<Piece, TermFault>
    requires { is_list_call function ≡ false }
    ensures { Gives result (functions_call at function (a ∷ b ∷ c ∷ [])) }
{
    match function {
        ExprFn::Between => between_parts(alloc, at, a, b, c),
        _ => of_three(alloc, at, function, a.1, b.1, c.1),
    }
}

/// The day of the one text in the parentheses of a call.
fn only_day(parts: &[Part]) -> Option<Option<i32>>
    ensures { result ≡ day_in parts.now }
{
    match parts {
        [a] => a.1.day(),
        [] => None,
        [_, _, ..] => None,
    }
}

#[tactic(auto, unfolding(crate::specs::Terms::day_literal))]
/// A day as a literal, and wrong arguments where there is none.
fn day_literal(at: u32, day: Option<Option<i32>>) -> Res<Piece, TermFault>
    ensures { Gives result (day_made at day) }
{
    match day {
        Some(Some(day)) => Ok(Piece::Literal(Value::Day(day), ColType::Date)),
        Some(None) => Err(fault_at(TermFaultKind::WrongArguments, at)),
        None => Err(fault_at(TermFaultKind::WrongArguments, at)),
    }
}

/// `as.Date` of a text as it is written.
fn date_call(at: u32, parts: &[Part]) -> Res<Piece, TermFault>
    ensures { Gives result (date_called at parts.now) }
{
    day_literal(at, only_day(parts))
}

fn is_membership(oper: Oper) -> bool
    ensures { result ≡ membership_named oper }
{
    match oper {
        Oper::IsIn => true,
        _ => false,
    }
}

fn is_tilde(oper: Oper) -> bool
    ensures { result ≡ tilde_named oper }
{
    match oper {
        Oper::Tilde => true,
        _ => false,
    }
}

/// An operator between two parts, where there is such an operator on values.
fn between_two(
    alloc: Global,
    at: u32,
    oper: Oper,
    first: Part,
    second: Part,
) -> Res<Piece, TermFault>
    ensures { Gives result (between_made at (operator_named oper) first second) }
{
    match operator(oper) {
        Some(function) => operated(alloc, at, function, first, second),
        None => Err(fault_at(TermFaultKind::WrongArguments, at)),
    }
}

/// The part that a term of a script is over these columns: an expression with its type, a literal, or one that missing
/// values alone decide.
///
/// The first fault of its parts from the left is the answer, and then its own. A name that no column has is UnknownColumn;
/// a call is UnknownFunction or OutOfProfile where no such function is there, and NotBuilt where it is an aggregate or a
/// window call, before its arguments are looked at. Arguments of another form are WrongArguments, and of other types
/// WrongType, at the call or operator; a text beside a date that is none is WrongType at the text. The functions are those
/// of R and dplyr that docs/LANGUAGE.md lists. The only other error is want of memory.
#[cycle(reading)]
pub fn piece_of(alloc: Global, schema: &Schema, term: &Term) -> Res<Piece, TermFault>
    ensures { Gives result (piece_read schema.now term.now) }
{
    let at = term.at;
    match &term.kind {
        TermKind::Name(name) => column(schema, at, name),
        TermKind::Whole(number) => Ok(Piece::Number(Value::Int(*number), ColType::Int)),
        TermKind::Decimal(number) => Ok(Piece::Number(Value::Dec(*number), ColType::Dec)),
        TermKind::Str(text) => Ok(Piece::Literal(Value::Chr(text.copy()?), ColType::Chr)),
        TermKind::Word(word) => Ok(word_piece(*word)),
        TermKind::Unary(oper, operand) => {
            let operand = piece_of(alloc, schema, operand.get())?;
            signed(alloc, at, *oper, operand)
        }
        TermKind::Binary(oper, left, right) => {
            let first = part_of(alloc, schema, left.get())?;
            behind_left(alloc, schema, at, *oper, first, right.get())
        }
        TermKind::Call(call) => call_piece(alloc, schema, call),
        TermKind::Pipe(_) => Err(fault_at(TermFaultKind::WrongArguments, at)),
    }
}

#[cycle(reading)]
/// The part of a term with its place.
fn part_of(alloc: Global, schema: &Schema, term: &Term) -> Res<Part, TermFault>
    ensures { Gives result (part (reading schema.now term.now)) }
{
    let piece = piece_of(alloc, schema, term)?;
    Ok((term.at, piece))
}

#[cycle(reading)]
/// An operator between a part and the term behind it.
fn behind_left(
    alloc: Global,
    schema: &Schema,
    at: u32,
    oper: Oper,
    first: Part,
    right: &Term,
) -> Res<Piece, TermFault>
    ensures { Gives result (left_read at oper first (reading schema.now right.now)) }
{
    if is_membership(oper) {
        let items = items_of(alloc, schema, right)?;
        return membership(alloc, at, first, items);
    }
    let second = part_of(alloc, schema, right)?;
    between_two(alloc, at, oper, first, second)
}

#[cycle(reading)]
/// The parts of a list `c(..)`, and none of another term.
fn items_of(alloc: Global, schema: &Schema, term: &Term) -> Res<Option<Seq<Part>>, TermFault>
    ensures { Gives result (reading schema.now term.now).items }
{
    if let TermKind::Call(call) = &term.kind {
        if call.name.as_str() == "c" {
            let parts = plain_arguments(alloc, schema, &call.args)?;
            return Ok(Some(parts));
        }
    }
    piece_of(alloc, schema, term)?;
    Ok(None)
}

#[cycle(reading)]
/// The two sides of a condition with its value, and none of another term.
fn sides_of(alloc: Global, schema: &Schema, term: &Term) -> Res<Option<(Piece, Piece)>, TermFault>
    ensures { Gives result (reading schema.now term.now).sides }
{
    if let TermKind::Binary(oper, left, right) = &term.kind {
        if is_tilde(*oper) {
            let condition = piece_of(alloc, schema, left.get())?;
            let value = piece_of(alloc, schema, right.get())?;
            return Ok(Some((condition, value)));
        }
    }
    piece_of(alloc, schema, term)?;
    Ok(None)
}

#[cycle(reading)]
/// A call, by what its name stands for.
fn call_piece(alloc: Global, schema: &Schema, call: &Call) -> Res<Piece, TermFault>
    ensures { Gives result (called schema.now call.now).value }
{
    let at = call.at;
    match callee_named(call.name.as_str()) {
        Callee::Row(function) => row_call(alloc, schema, at, function, &call.args),
        Callee::AsDate => {
            let parts = plain_arguments(alloc, schema, &call.args)?;
            date_call(at, parts.as_slice())
        }
        Callee::Grouped => Err(fault_at(TermFaultKind::NotBuilt, at)),
        Callee::LeftOut => refused(alloc, schema, &call.args, TermFaultKind::OutOfProfile, at),
        Callee::Unknown => refused(
            alloc,
            schema,
            &call.args,
            TermFaultKind::UnknownFunction,
            at,
        ),
    }
}

#[cycle(reading)]
/// A call of a row function.
fn row_call(
    alloc: Global,
    schema: &Schema,
    at: u32,
    function: ExprFn,
    args: &Seq<Arg>,
) -> Res<Piece, TermFault>
    ensures { Gives result (row_called at function (map (argument schema.now) args.now)) }
{
    match function {
        ExprFn::CaseWhen(_) => {
            let had = all_cases(alloc, schema, args)?;
            case_call(alloc, at, had)
        }
        _ => {
            let parts = plain_arguments(alloc, schema, args)?;
            function_call(alloc, at, function, parts)
        }
    }
}

#[cycle(reading)]
/// The fault of a call that is refused, behind those of its arguments.
fn refused(
    alloc: Global,
    schema: &Schema,
    args: &Seq<Arg>,
    kind: TermFaultKind,
    at: u32,
) -> Res<Piece, TermFault>
    ensures { Gives result (and_then (any_arguments (map (argument schema.now) args.now)) (λ ps. Err (record { kind = kind; at = at }))) }
{
    for arg in args.as_slice() {
        piece_of(alloc, schema, &arg.value)?;
    }
    Err(fault_at(kind, at))
}

#[cycle(reading)]
/// The part of an argument that is to have no name.
fn plain_argument(alloc: Global, schema: &Schema, arg: &Arg) -> Res<Part, TermFault>
    ensures { Gives result (plain_one (argument schema.now arg.now)) }
{
    match &arg.name {
        Some(_) => Err(fault_at(TermFaultKind::WrongArguments, arg.at)),
        None => part_of(alloc, schema, &arg.value),
    }
}

#[cycle(reading)]
/// The parts of arguments without names.
fn plain_arguments(alloc: Global, schema: &Schema, args: &Seq<Arg>) -> Res<Seq<Part>, TermFault>
    ensures { Gives result (plain_read (map (argument schema.now) args.now)) }
{
    let mut parts = Seq::new(alloc);
    for arg in args.as_slice() {
        parts.push(plain_argument(alloc, schema, arg)?)?;
    }
    Ok(parts)
}

#[cycle(reading)]
/// One argument of a `case_when` more.
fn with_case(alloc: Global, schema: &Schema, mut had: Cases, arg: &Arg) -> Res<Cases, TermFault>
    ensures { Gives result (with_one_case had (argument schema.now arg.now).name (argument schema.now arg.now).at (argument schema.now arg.now).value) }
{
    match &arg.name {
        Some(name) => {
            if name.as_str() != ".default" || had.default.is_some() {
                return Err(fault_at(TermFaultKind::WrongArguments, arg.at));
            }
            had.default = Some(piece_of(alloc, schema, &arg.value)?);
        }
        None => match sides_of(alloc, schema, &arg.value)? {
            Some(sides) => had.conditions.push(sides)?,
            None => had.stray = true,
        },
    }
    Ok(had)
}

#[cycle(reading)]
/// The arguments of a `case_when`.
fn all_cases(alloc: Global, schema: &Schema, args: &Seq<Arg>) -> Res<Cases, TermFault>
    ensures { Gives result (with_all_cases no_cases (map (argument schema.now) args.now)) }
{
    let mut had = Cases {
        conditions: Seq::new(alloc),
        default: None,
        stray: false,
    };
    for arg in args.as_slice() {
        had = with_case(alloc, schema, had, arg)?;
    }
    Ok(had)
}

/// The expression of a term over these columns with its type, or its first fault, as [`piece_of`] says. An expression that
/// missing values alone decide is lgl here, since no other type is needed of it.
pub fn expression_of(alloc: Global, schema: &Schema, term: &Term) -> Res<(Expr, ColType), TermFault>
    ensures { Gives result (expression_read schema.now term.now) }
{
    let piece = piece_of(alloc, schema, term)?;
    let kind = piece.kind_as(ColType::Lgl);
    Ok((piece.into_expr(ColType::Lgl), kind))
}
