ghost use Rattle.std.specs.Prelude.{◌≡◌, true, false, None};
ghost use Rattle.na_expr.specs.Evaluation.{takes_list as is_list_function};
ghost use Rattle.na_expr.specs.Types.{agreed, case_seen, case_type, takes};

use crate::expr::{ExprFn, TypeFault};
use crate::types::{carried, join, one_type, outcome, still_truths, test_of, three_type, two_type};
use scalar_value::ColType;

/// The type on which all of these agree: none where they do not, and nothing where there are none.
pub fn common_type(kinds: &[ColType]) -> Option<Option<ColType>>
    ensures { result ≡ agreed kinds.now }
{
    let mut so_far = None;
    for kind in kinds {
        so_far = join(so_far, *kind);
    }
    so_far
}

/// The type that an operator or function gives for arguments of these types. `WrongType` is the answer where it does not
/// take them, and `WrongArguments` where it takes another number of arguments. A choice carries the type on which its values
/// agree, else its type is wrong.
pub fn call_type(function: ExprFn, kinds: &[ColType]) -> Result<ColType, TypeFault>
    ensures { result ≡ takes function kinds.now }
{
    match function {
        ExprFn::IsIn => match common_type(kinds) {
            Some(kind) => test_of(kind),
            None => Err(TypeFault::WrongArguments),
        },
        ExprFn::Coalesce(carries) => match common_type(kinds) {
            Some(kind) => carried(carries, kind),
            None => Err(TypeFault::WrongArguments),
        },
        ExprFn::Paste0 => match common_type(kinds) {
            Some(_) => Ok(ColType::Chr),
            None => Err(TypeFault::WrongArguments),
        },
        ExprFn::CaseWhen(carries) => case_call_type(carries, kinds),
        _ => few_type(function, kinds),
    }
}

/// The type of a function of one to three values.
fn few_type(function: ExprFn, kinds: &[ColType]) -> Result<ColType, TypeFault>
    requires { is_list_function function ≡ false }
    ensures { result ≡ takes function kinds.now }
{
    match kinds {
        [a] => one_type(function, *a),
        [a, b] => two_type(function, *a, *b),
        [a, b, c] => three_type(function, *a, *b, *c),
        [] => Err(TypeFault::WrongArguments),
        [_, _, _, _, ..] => Err(TypeFault::WrongArguments),
    }
}

/// Whether the conditions of a `case_when` are truth values, and the type on which its values agree.
fn case_kinds(kinds: &[ColType]) -> (bool, Option<Option<ColType>>)
    ensures { result ≡ case_seen true None kinds.now }
{
    let (mut truths, mut values) = (true, None);
    for at in 0..kinds.len() / 2 {
        truths = still_truths(truths, kinds[2 * at]);
        values = join(values, kinds[2 * at + 1]);
    }
    if kinds.len() % 2 == 0 {
        return (truths, values);
    }
    (truths, join(values, kinds[kinds.len() - 1]))
}

/// The type of a `case_when`.
fn case_call_type(carries: ColType, kinds: &[ColType]) -> Result<ColType, TypeFault>
    ensures { result ≡ case_type carries kinds.now }
{
    match kinds {
        [] => Err(TypeFault::WrongArguments),
        [_] => Err(TypeFault::WrongArguments),
        [_, _, ..] => {
            let (truths, values) = case_kinds(kinds);
            outcome(carries, truths, values)
        }
    }
}
