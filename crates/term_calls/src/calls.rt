ghost use Rattle.std.specs.Prelude.{◌≡◌, ◌∷◌, [], IfOk, map};
ghost use Rattle.std.specs.List.{list_all};
ghost use Rattle.scalar_value.specs.Gives.{Gives};
ghost use Rattle.term_calls.specs.Faults.{and_then, all_of, stands_at};
ghost use Rattle.term_calls.specs.Calls.{call_of as call_made, alone as wanted_alone, is_logic as logic, before as wanted_left, beside as wanted_right, is_date as date_kind, of_one as one_called, of_two as two_called, of_three as three_called, choice as choice_made, within as within_made, text_part as text_part_made, agreement as values_agree, over as over_all, in_list as in_all, first_there as first_of_all, beside_date as read_beside, has_date as dated_part, comparison as compared, operated as operator_made, between_parts as between_made, with_items as items_joined, membership as member, among_items as items_searched, among_literals as literals_searched, choice_over as chosen_over, agreement_as as parts_agree};
ghost use Rattle.term_calls.specs.Calls.{freed};
ghost use Rattle.term_calls.specs.Pieces.{kind_of, type_as, first_kind, is_free, is_literal as literal};
ghost use Rattle.na_expr.specs.Evaluation.{is_comparison as comparing, is_text_test as text_testing};

use crate::fault::{TermFault, TermFaultKind, fault_at, type_fault};
use crate::piece::{Piece, first_typed, needed_beside};
use na_expr::{Expr, ExprFn, call_type, common_type};
use scalar_value::{ColType, Mem, Res, Seq, Value};
use std::alloc::Global;

/// A part of an expression, behind the byte place where it stands.
pub type Part = (u32, Piece);

#[tactic(auto, unfolding(crate::specs::Calls::call_of))]
/// The call of a function over expressions of these types, with the type of its value, or the fault of these types at the
/// call.
pub fn call_of(
    at: u32,
    function: ExprFn,
    args: Seq<Expr>,
    kinds: &[ColType],
) -> Res<Piece, TermFault>
    ensures { Gives result (stands_at at (call_made function args kinds.now)) }
{
    match call_type(function, kinds) {
        Ok(kind) => Ok(Piece::Typed(Expr::Call(function, args), kind)),
        Err(wrong) => Err(type_fault(wrong, at)),
    }
}

fn one(alloc: Global, a: Expr) -> Mem<Seq<Expr>>
    ensures { IfOk result (λ made. made ≡ a ∷ []) }
{
    let mut made = Seq::new(alloc);
    made.push(a)?;
    Ok(made)
}

fn two(alloc: Global, a: Expr, b: Expr) -> Mem<Seq<Expr>>
    ensures { IfOk result (λ made. made ≡ a ∷ b ∷ []) }
{
    let mut made = Seq::new(alloc);
    made.push(a)?;
    made.push(b)?;
    Ok(made)
}

fn three(alloc: Global, a: Expr, b: Expr, c: Expr) -> Mem<Seq<Expr>>
    ensures { IfOk result (λ made. made ≡ a ∷ b ∷ c ∷ []) }
{
    let mut made = Seq::new(alloc);
    made.push(a)?;
    made.push(b)?;
    made.push(c)?;
    Ok(made)
}

/// The type that a free part takes as the one argument of a function.
fn alone(function: ExprFn) -> ColType
    ensures { result ≡ wanted_alone function }
{
    match function {
        ExprFn::Not | ExprFn::IsNa | ExprFn::AsCharacter => ColType::Lgl,
        ExprFn::NChar | ExprFn::ToUpper | ExprFn::ToLower => ColType::Chr,
        ExprFn::Year | ExprFn::Month | ExprFn::Day | ExprFn::Wday => ColType::Date,
        _ => ColType::Int,
    }
}

fn is_comparison(function: ExprFn) -> bool
    ensures { result ≡ comparing function }
{
    match function {
        ExprFn::Eq | ExprFn::Ne | ExprFn::Lt | ExprFn::Le | ExprFn::Gt | ExprFn::Ge => true,
        _ => false,
    }
}

fn is_text_test(function: ExprFn) -> bool
    ensures { result ≡ text_testing function }
{
    match function {
        ExprFn::StartsWith | ExprFn::EndsWith => true,
        _ => false,
    }
}

fn is_logic(function: ExprFn) -> bool
    ensures { result ≡ logic function }
{
    match function {
        ExprFn::And | ExprFn::Or => true,
        _ => false,
    }
}

fn is_date(kind: Option<ColType>) -> bool
    ensures { result ≡ date_kind kind }
{
    match kind {
        Some(ColType::Date) => true,
        _ => false,
    }
}

/// The type that a free part takes beside another part.
fn beside(function: ExprFn, other: Option<ColType>) -> ColType
    ensures { result ≡ wanted_right function other }
{
    if is_comparison(function) {
        needed_beside(other)
    } else if is_logic(function) {
        ColType::Lgl
    } else if is_text_test(function) {
        ColType::Chr
    } else {
        ColType::Int
    }
}

/// The same on the left of an operator.
fn before(function: ExprFn, other: Option<ColType>) -> ColType
    ensures { result ≡ wanted_left function other }
{
    match function {
        ExprFn::Sub => {
            if is_date(other) {
                ColType::Date
            } else {
                ColType::Int
            }
        }
        _ => beside(function, other),
    }
}

#[tactic(auto, unfolding(crate::specs::Calls::of_one))]
/// A function of one value: its call with its type, or the fault of its types at the call; or want of memory.
pub fn of_one(alloc: Global, at: u32, function: ExprFn, a: Piece) -> Res<Piece, TermFault>
    ensures { Gives result (stands_at at (one_called function a)) }
{
    let wanted = alone(function);
    let kinds = [a.kind_as(wanted)];
    let args = one(alloc, a.into_expr(wanted))?;
    call_of(at, function, args, &kinds)
}

#[tactic(auto, unfolding(crate::specs::Calls::of_two))]
/// A function of two values: its call with its type, or the fault of its types at the call; or want of memory.
pub fn of_two(alloc: Global, at: u32, function: ExprFn, a: Piece, b: Piece) -> Res<Piece, TermFault>
    ensures { Gives result (stands_at at (two_called function a b)) }
{
    let left = before(function, b.kind());
    let right = beside(function, a.kind());
    let kinds = [a.kind_as(left), b.kind_as(right)];
    let args = two(alloc, a.into_expr(left), b.into_expr(right))?;
    call_of(at, function, args, &kinds)
}

/// The type on which values agree; lgl where they do not, and then their call has a wrong type.
pub fn agreement(kinds: &[ColType]) -> ColType
    ensures { result ≡ values_agree kinds.now }
{
    match common_type(kinds) {
        Some(Some(kind)) => kind,
        _ => ColType::Lgl,
    }
}

/// The type of the first of two parts that has one.
fn first_of_two(a: &Piece, b: &Piece) -> Option<ColType>
    ensures { result ≡ first_kind (kind_of a.now ∷ kind_of b.now ∷ []) }
{
    match a.kind() {
        Some(kind) => Some(kind),
        None => b.kind(),
    }
}

#[tactic(auto, using(crate::proofs::Choices::free_given, crate::proofs::Choices::free_faulty))]
/// `if_else(c, a, b)`
fn choice(alloc: Global, at: u32, c: Piece, a: Piece, b: Piece) -> Res<Piece, TermFault>
    ensures { Gives result (stands_at at (choice_made c a b)) }
{
    let first = first_of_two(&a, &b);
    let wanted = needed_beside(first);
    let values = [a.kind_as(wanted), b.kind_as(wanted)];
    let kinds = [c.kind_as(ColType::Lgl), values[0], values[1]];
    let function = ExprFn::IfElse(agreement(&values));
    let args = three(
        alloc,
        c.into_expr(ColType::Lgl),
        a.into_expr(wanted),
        b.into_expr(wanted),
    )?;
    let made = call_of(at, function, args, &kinds)?;
    Ok(free_where(first, made))
}

/// A choice by the type of the first of its values that has one: what is made of it, and a free part where no value has one.
pub fn free_where(first: Option<ColType>, made: Piece) -> Piece
    ensures { result ≡ freed (is_free first) made }
{
    match first {
        Some(_) => made,
        None => Piece::Free,
    }
}

#[tactic(auto, unfolding(crate::specs::Calls::within))]
/// `between(x, a, b)`
fn within(alloc: Global, at: u32, x: Piece, a: Piece, b: Piece) -> Res<Piece, TermFault>
    ensures { Gives result (stands_at at (within_made x a b)) }
{
    let first = match x.kind() {
        Some(kind) => Some(kind),
        None => first_of_two(&a, &b),
    };
    let wanted = needed_beside(first);
    let kinds = [x.kind_as(wanted), a.kind_as(wanted), b.kind_as(wanted)];
    let args = three(
        alloc,
        x.into_expr(wanted),
        a.into_expr(wanted),
        b.into_expr(wanted),
    )?;
    call_of(at, ExprFn::Between, args, &kinds)
}

/// Any other function of three values, as `substr(x, a, b)`.
fn text_part(
    alloc: Global,
    at: u32,
    function: ExprFn,
    x: Piece,
    a: Piece,
    b: Piece,
) -> Res<Piece, TermFault>
    ensures { Gives result (stands_at at (text_part_made function x a b)) }
{
    let kinds = [
        x.kind_as(ColType::Chr),
        a.kind_as(ColType::Int),
        b.kind_as(ColType::Int),
    ];
    let args = three(
        alloc,
        x.into_expr(ColType::Chr),
        a.into_expr(ColType::Int),
        b.into_expr(ColType::Int),
    )?;
    call_of(at, function, args, &kinds)
}

/// A function of three values: its call with its type, or the fault of its types at the call; or want of memory. An `if_else`
/// between free values is free.
pub fn of_three(
    alloc: Global,
    at: u32,
    function: ExprFn,
    a: Piece,
    b: Piece,
    c: Piece,
) -> Res<Piece, TermFault>
    ensures { Gives result (stands_at at (three_called function a b c)) }
{
    match function {
        ExprFn::IfElse(_) => choice(alloc, at, a, b, c),
        ExprFn::Between => within(alloc, at, a, b, c),
        _ => text_part(alloc, at, function, a, b, c),
    }
}

#[tactic(auto, unfolding(crate::specs::Calls::over))]
/// A function of a list of parts, of which free ones take this type.
fn over(
    alloc: Global,
    at: u32,
    function: ExprFn,
    wanted: ColType,
    pieces: Seq<Piece>,
) -> Res<Piece, TermFault>
    ensures { Gives result (stands_at at (over_all function wanted pieces)) }
{
    let mut args = Seq::new(alloc);
    let mut kinds = Seq::new(alloc);
    for piece in pieces.into_vec() {
        kinds.push(piece.kind_as(wanted))?;
        args.push(piece.into_expr(wanted))?;
    }
    call_of(at, function, args, kinds.as_slice())
}

/// The types of parts, where free ones take this type.
fn kinds_as(alloc: Global, wanted: ColType, pieces: &[Piece]) -> Mem<Seq<ColType>>
    ensures { IfOk result (λ kinds. kinds ≡ map (type_as wanted) pieces.now) }
{
    let mut kinds = Seq::new(alloc);
    for piece in pieces {
        kinds.push(piece.kind_as(wanted))?;
    }
    Ok(kinds)
}

#[tactic(auto, unfolding(crate::specs::Calls::in_list))]
/// `x %in% c(..)`, of x and the literals.
fn in_list(alloc: Global, at: u32, pieces: Seq<Piece>) -> Res<Piece, TermFault>
    ensures { Gives result (stands_at at (in_all pieces)) }
{
    let wanted = needed_beside(first_typed(pieces.as_slice()));
    over(alloc, at, ExprFn::IsIn, wanted, pieces)
}

#[tactic(auto, using(crate::proofs::Choices::free_given, crate::proofs::Choices::free_faulty), unfolding(crate::specs::Calls::choice_over))]
/// A choice among the parts of a list, by the type of the first that has one.
fn choice_over(
    alloc: Global,
    at: u32,
    function: ExprFn,
    first: Option<ColType>,
    pieces: Seq<Piece>,
) -> Res<Piece, TermFault>
    ensures { Gives result (stands_at at (chosen_over function first pieces)) }
{
    let made = over(alloc, at, function, needed_beside(first), pieces)?;
    Ok(free_where(first, made))
}

/// The type on which parts agree, where free ones take this type.
fn agreement_as(alloc: Global, wanted: ColType, pieces: &[Piece]) -> Mem<ColType>
    ensures { IfOk result (λ kind. kind ≡ parts_agree wanted pieces.now) }
{
    let kinds = kinds_as(alloc, wanted, pieces)?;
    Ok(agreement(kinds.as_slice()))
}

#[tactic(auto, unfolding(crate::specs::Calls::first_there))]
/// `coalesce(a, ..)`: its call with its type, and a free part where all are free; or the fault of its types at the call; or
/// want of memory.
pub fn first_there(alloc: Global, at: u32, pieces: Seq<Piece>) -> Res<Piece, TermFault>
    ensures { Gives result (stands_at at (first_of_all pieces)) }
{
    let first = first_typed(pieces.as_slice());
    let kind = agreement_as(alloc, needed_beside(first), pieces.as_slice())?;
    choice_over(alloc, at, ExprFn::Coalesce(kind), first, pieces)
}

/// `paste0(a, ..)`: its call with its type, or the fault of its types at the call; or want of memory.
pub fn pasted(alloc: Global, at: u32, pieces: Seq<Piece>) -> Res<Piece, TermFault>
    ensures { Gives result (stands_at at (over_all ExprFn.Paste0 ColType.Lgl pieces)) }
{
    over(alloc, at, ExprFn::Paste0, ColType::Lgl, pieces)
}

#[tactic(auto, unfolding(crate::specs::Calls::beside_date))]
/// A part beside a date: a text as it is written is read as a date.
fn beside_date(dated: bool, part: Part) -> Res<Piece, TermFault>
    ensures { Gives result (read_beside dated part) }
{
    let (at, piece) = part;
    if !dated {
        return Ok(piece);
    }
    match piece.day() {
        Some(Some(day)) => Ok(Piece::Literal(Value::Day(day), ColType::Date)),
        Some(None) => Err(fault_at(TermFaultKind::WrongType, at)),
        None => Ok(piece),
    }
}

fn has_date(part: &Part) -> bool
    ensures { result ≡ dated_part part.now }
{
    is_date(part.1.kind())
}

#[tactic(auto, unfolding(crate::specs::Calls::comparison))]
fn comparison(alloc: Global, at: u32, function: ExprFn, a: Part, b: Part) -> Res<Piece, TermFault>
    ensures { Gives result (compared at function a b) }
{
    let (left_dated, right_dated) = (has_date(&b), has_date(&a));
    let left = beside_date(left_dated, a)?;
    let right = beside_date(right_dated, b)?;
    of_two(alloc, at, function, left, right)
}

#[tactic(auto, unfolding(crate::specs::Calls::operated))]
/// An operator between two parts: its call with its type, or the fault of its types at the operator; or want of memory. In a
/// comparison a text as it is written beside a date is read as a date, and a text that is none is a wrong type at its place.
pub fn operated(alloc: Global, at: u32, function: ExprFn, a: Part, b: Part) -> Res<Piece, TermFault>
    ensures { Gives result (operator_made at function a b) }
{
    if is_comparison(function) {
        comparison(alloc, at, function, a, b)
    } else {
        of_two(alloc, at, function, a.1, b.1)
    }
}

#[tactic(auto, unfolding(crate::specs::Calls::between_parts))]
/// `between`, of three parts: its call with its type, or the fault of its types at the call; or want of memory. Where one is
/// a date the texts as they are written are read as dates, and one that is none is a wrong type at its place.
pub fn between_parts(alloc: Global, at: u32, x: Part, a: Part, b: Part) -> Res<Piece, TermFault>
    ensures { Gives result (between_made at x a b) }
{
    let dated = has_date(&x) || has_date(&a) || has_date(&b);
    let x = beside_date(dated, x)?;
    let low = beside_date(dated, a)?;
    let high = beside_date(dated, b)?;
    within(alloc, at, x, low, high)
}

fn are_literals(items: &[Part]) -> bool
    ensures { result ≡ list_all (λ item. literal item.1) items.now }
{
    for item in items {
        if !item.1.is_literal() {
            return false;
        }
    }
    true
}

#[tactic(auto, unfolding(crate::specs::Calls::with_items))]
/// x and the literals of a list, in which a text beside a date is read as a date.
fn with_items(alloc: Global, x: Part, items: Seq<Part>) -> Res<Seq<Piece>, TermFault>
    ensures { Gives result (items_joined x items) }
{
    let dated = has_date(&x);
    let mut made = Seq::new(alloc);
    made.push(x.1)?;
    for item in items.into_vec() {
        made.push(beside_date(dated, item)?)?;
    }
    Ok(made)
}

#[tactic(auto, unfolding(crate::specs::Calls::among_literals))]
/// x among literals.
fn among_literals(alloc: Global, at: u32, x: Part, items: Seq<Part>) -> Res<Piece, TermFault>
    ensures { Gives result (literals_searched at x items) }
{
    let pieces = with_items(alloc, x, items)?;
    in_list(alloc, at, pieces)
}

/// x among parts, which are to be literals.
fn among_items(alloc: Global, at: u32, x: Part, items: Seq<Part>) -> Res<Piece, TermFault>
    ensures { Gives result (items_searched at x items) }
{
    if are_literals(items.as_slice()) {
        among_literals(alloc, at, x, items)
    } else {
        Err(fault_at(TermFaultKind::WrongArguments, at))
    }
}

#[tactic(auto, unfolding(crate::specs::Calls::membership))]
/// `x %in% c(..)`: its call with its type, or the fault of its types at the call; or want of memory. Where there is no list,
/// or a part of it is no literal, the arguments are wrong; beside a date x the texts of the list are read as dates, and one
/// that is none is a wrong type at its place.
pub fn membership(
    alloc: Global,
    at: u32,
    x: Part,
    items: Option<Seq<Part>>,
) -> Res<Piece, TermFault>
    ensures { Gives result (member at x items) }
{
    match items {
        Some(items) => among_items(alloc, at, x, items),
        None => Err(fault_at(TermFaultKind::WrongArguments, at)),
    }
}
