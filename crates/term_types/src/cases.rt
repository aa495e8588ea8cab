ghost use Rattle.std.specs.Prelude.{◌≡◌, ◌∷◌, ◌++◌, [], IfOk, OnOk, map};
ghost use Rattle.std.specs.List.{flat_map};
ghost use Rattle.scalar_value.specs.Gives.{Gives};
ghost use Rattle.scalar_value.specs.declared.value.ColType.TheVariants.{Lgl};
ghost use Rattle.term_calls.specs.Faults.{stands_at};
ghost use Rattle.term_calls.specs.Pieces.{kind_of, type_as, expr_as};
ghost use Rattle.term_calls.specs.Calls.{cases as cases_made, cases_by, case_kind as first_case_kind, case_args, case_kinds, case_values, default_kind, default_of};
ghost use Rattle.term_types.specs.Collecting.{case_lists};
ghost use Rattle.term_types.specs.Terms.{case_call as case_called};

use na_expr::{Expr, ExprFn};
use scalar_value::{ColType, Mem, Res, Seq};
use std::alloc::Global;
use term_calls::{
    Piece, TermFault, TermFaultKind, agreement, call_of, fault_at, free_where, needed_beside,
};

/// The arguments of a `case_when` so far: its conditions with their values, its default, and whether an argument is no
/// condition with a value.
#[derive(Debug, Drop)]
pub struct Cases {
    pub conditions: Seq<(Piece, Piece)>,
    pub default: Option<Piece>,
    pub stray: bool,
}

/// What a `case_when` is called with: its arguments, their types, and the types of its values alone.
#[derive(Debug, Drop)]
struct CaseCall {
    args: Seq<Expr>,
    kinds: Seq<ColType>,
    values: Seq<ColType>,
}

impl CaseCall {
    /// One value more, where a free one takes this type.
    fn push_value(&mut self, wanted: ColType, value: Piece) -> Mem<()>
        ensures { OnOk result (self.new ≡ record { args = self.old.args ++ expr_as wanted value ∷ []; kinds = self.old.kinds ++ type_as wanted value ∷ []; values = self.old.values ++ type_as wanted value ∷ [] }) }
    {
        let kind = value.kind_as(wanted);
        self.kinds.push(kind)?;
        self.values.push(kind)?;
        self.args.push(value.into_expr(wanted))?;
        Ok(())
    }

    /// One condition more with its value.
    fn push_case(&mut self, wanted: ColType, condition: Piece, value: Piece) -> Mem<()>
        ensures { OnOk result (self.new ≡ record { args = self.old.args ++ expr_as Lgl condition ∷ [] ++ expr_as wanted value ∷ []; kinds = self.old.kinds ++ type_as Lgl condition ∷ [] ++ type_as wanted value ∷ []; values = self.old.values ++ type_as wanted value ∷ [] }) }
    {
        self.kinds.push(condition.kind_as(ColType::Lgl))?;
        self.args.push(condition.into_expr(ColType::Lgl))?;
        self.push_value(wanted, value)
    }
}

/// The type of a default, where there is one that is not free.
fn kind_of_default(default: &Option<Piece>) -> Option<ColType>
    ensures { result ≡ default_kind default.now }
{
    match default {
        Some(piece) => piece.kind(),
        None => None,
    }
}

/// The type of the first value that has one.
fn case_kind(conditions: &[(Piece, Piece)], default: &Option<Piece>) -> Option<ColType>
    ensures { result ≡ first_case_kind conditions.now default.now }
{
    for case in conditions {
        if let Some(kind) = case.1.kind() {
            return Some(kind);
        }
    }
    kind_of_default(default)
}

/// The arguments of a `case_when`, where free values take this type.
fn collected(alloc: Global, wanted: ColType, conditions: Seq<(Piece, Piece)>) -> Mem<CaseCall>
    ensures { IfOk result (λ made. made ≡ case_lists wanted conditions) }
{
    let mut made = CaseCall {
        args: Seq::new(alloc),
        kinds: Seq::new(alloc),
        values: Seq::new(alloc),
    };
    for case in conditions.into_vec() {
        let (condition, value) = case;
        made.push_case(wanted, condition, value)?;
    }
    Ok(made)
}

/// All arguments of a `case_when`.
fn case_arguments(
    alloc: Global,
    wanted: ColType,
    conditions: Seq<(Piece, Piece)>,
    default: Option<Piece>,
) -> Mem<CaseCall>
    ensures { IfOk result (λ made. made ≡ record { args = case_args wanted conditions default; kinds = case_kinds wanted conditions default; values = case_values wanted conditions default }) }
{
    let mut made = collected(alloc, wanted, conditions)?;
    if let Some(value) = default {
        made.push_value(wanted, value)?;
    }
    Ok(made)
}

#[tactic(auto, using(term_calls::proofs::Choices::free_given, term_calls::proofs::Choices::free_faulty), unfolding(term_calls::specs::Calls::cases_by))]
/// A `case_when` with at least one condition, by the type of its first value that has one.
fn case_when(
    alloc: Global,
    at: u32,
    conditions: Seq<(Piece, Piece)>,
    default: Option<Piece>,
) -> Res<Piece, TermFault>
    ensures { Gives result (stands_at at (cases_by (first_case_kind conditions default) conditions default)) }
{
    let first = case_kind(conditions.as_slice(), &default);
    let made = case_arguments(alloc, needed_beside(first), conditions, default)?;
    let function = ExprFn::CaseWhen(agreement(made.values.as_slice()));
    let piece = call_of(at, function, made.args, made.kinds.as_slice())?;
    Ok(free_where(first, piece))
}

#[tactic(auto, unfolding(crate::specs::Terms::case_call))]
/// A `case_when` of these arguments.
pub fn case_call(alloc: Global, at: u32, had: Cases) -> Res<Piece, TermFault>
    ensures { Gives result (case_called at had) }
{
    if had.stray || had.conditions.is_empty() {
        return Err(fault_at(TermFaultKind::WrongArguments, at));
    }
    case_when(alloc, at, had.conditions, had.default)
}
