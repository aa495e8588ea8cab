ghost use Rattle.std.specs.Prelude.{◌≡◌, IfOk, IsTrue, Some, None, if◌then◌else◌};
ghost use Rattle.std.specs.List.{list_any};
ghost use Rattle.scalar_value.specs.Gives.{Gives};
ghost use Rattle.row_table.specs.Tables.{names_differ as differ, are_groups};
ghost use Rattle.verb_forms.specs.After.{after};
ghost use Rattle.verb_forms.specs.Suits.{Suits};
ghost use Rattle.verb_arguments.specs.Arguments.{is_named as has_this_name};
ghost use Rattle.verb_arguments.specs.Forms.{by};
ghost use Rattle.verb_types.specs.Steps.{verb_of as verb_read};
ghost use Rattle.verb_types.specs.Working.{KeepsGroups, shape_or_fault as shape_read};
ghost use Rattle.verb_types.specs.Checks.{of_arguments, is_grouped as groups_stand, has_by as by_stands, result_of as result_read, checked_verb as verb_checked, checked};

use crate::choice::{rename_of, select_of};
use crate::conditions::filter_of;
use crate::fault::{VerbFault, VerbKind, verb_fault, verb_kind};
use crate::groups::{drop_na_of, group_by_of};
use crate::moves::relocate_of;
use crate::replaced::replace_na_of;
use crate::values::mutate_of;
use row_table::{Mark, Schema};
use scalar_value::{Mem, Or, Res, Seq, Text};
use std::alloc::Global;
use syntax_tree::{Arg, Call};
use term_types::TermFault;
use verb_arguments::{Known, VerbName, has_form, is_named, known_by};
use verb_forms::{Shape, Verb, names_differ, shape_after, writes_group};

fn is_grouped(x: &Shape) -> bool
    ensures { result ≡ groups_stand x.now }
{
    !x.groups.is_empty()
}

fn names_by(args: &[Arg]) -> bool
    ensures { result ≡ list_any (has_this_name by) args.now }
{
    args.iter().any(|arg| is_named(".by", arg))
}

fn has_by(verb: VerbName, args: &[Arg]) -> bool
    ensures { result ≡ by_stands verb args.now }
{
    match verb {
        VerbName::Filter | VerbName::Mutate => names_by(args),
        _ => false,
    }
}

/// The checked verb of these arguments, called at this place.
fn verb_of(alloc: Global, verb: VerbName, x: &Shape, at: u32, args: &[Arg]) -> Res<Verb, TermFault>
    ensures { Gives result (verb_read verb x.now at args.now) }
{
    match verb {
        VerbName::Filter => filter_of(alloc, x, args),
        VerbName::Mutate => mutate_of(alloc, x, args),
        VerbName::Select => select_of(alloc, x, at, args),
        VerbName::Rename => rename_of(alloc, x, at, args),
        VerbName::Relocate => relocate_of(alloc, x, at, args),
        VerbName::GroupBy => group_by_of(alloc, x, args),
        VerbName::Ungroup => Ok(Verb::Ungroup),
        VerbName::DropNa => drop_na_of(alloc, x, args),
        VerbName::ReplaceNa => replace_na_of(alloc, x, args),
    }
}

/// The same, with its fault as one of the call.
fn verb_or_fault(
    alloc: Global,
    verb: VerbName,
    x: &Shape,
    at: u32,
    args: &[Arg],
) -> Res<Verb, VerbFault>
    ensures { Gives result (of_arguments (verb_read verb x.now at args.now)) }
{
    match verb_of(alloc, verb, x, at, args) {
        Ok(made) => Ok(made),
        Err(Or::Fault(fault)) => Err(verb_fault(verb_kind(fault.kind), fault.at)),
        Err(Or::Memory) => Err(Or::Memory),
    }
}

/// A shape of these parts, whose groups are columns where no two columns have one name; none where two have one.
fn named_shape(schema: Schema, groups: Seq<Text>, mark: Mark) -> Option<Shape>
    requires { IsTrue (differ schema) → IsTrue (are_groups schema groups) }
    ensures { result ≡ (if differ schema then Some (record { schema = schema; groups = groups; mark = mark }) else None) }
{
    if names_differ(schema.as_slice()) {
        Some(Shape {
            schema,
            groups,
            mark,
        })
    } else {
        None
    }
}

/// The shape after a verb, and none where two columns would have one name.
fn shape_behind(alloc: Global, verb: &Verb, x: &Shape) -> Mem<Option<Shape>>
    requires { KeepsGroups x.now verb.now }
    ensures { IfOk result (λ s. s ≡ (if differ (after verb.now x.now).schema then Some (after verb.now x.now) else None)) }
{
    let (schema, groups, mark) = shape_after(alloc, verb, &x.schema, &x.groups, x.mark)?;
    Ok(named_shape(schema, groups, mark))
}

/// The shape after a verb, where no grouping column is written and no two columns have one name.
fn shape_or_fault(alloc: Global, at: u32, x: &Shape, verb: &Verb) -> Res<Shape, VerbFault>
    requires { KeepsGroups x.now verb.now }
    ensures { Gives result (shape_read at x.now verb.now) }
{
    if writes_group(alloc, verb, x)? {
        return Err(verb_fault(VerbKind::GroupChanged, at));
    }
    match shape_behind(alloc, verb, x)? {
        Some(shape) => Ok(shape),
        None => Err(verb_fault(VerbKind::DuplicateName, at)),
    }
}

/// A verb with the shape after it.
fn result_of(alloc: Global, at: u32, x: &Shape, verb: Verb) -> Res<(Verb, Shape), VerbFault>
    requires { KeepsGroups x.now verb }
    ensures { Gives result (result_read at x.now verb) }
{
    let shape = shape_or_fault(alloc, at, x, &verb)?;
    Ok((verb, shape))
}

/// A verb of these arguments, called at this place, with the shape after it.
fn checked_verb(
    alloc: Global,
    verb: VerbName,
    at: u32,
    x: &Shape,
    args: &[Arg],
) -> Res<(Verb, Shape), VerbFault>
    ensures given { Gives result (verb_checked verb at x.now args.now) }
    ensures suits { IfOk result (λ r. Suits r.0 x.now × (r.1 ≡ after r.0 x.now)) }
{
    if !has_form(alloc, verb, &x.schema, args)? {
        return Err(verb_fault(VerbKind::WrongArguments, at));
    }
    if has_by(verb, args) && is_grouped(x) {
        return Err(verb_fault(VerbKind::ByOnGroups, at));
    }
    let made = verb_or_fault(alloc, verb, x, at, args)?;
    result_of(alloc, at, x, made)
}

/// The checked verb of a call over a table of this shape, with the shape after it, or the first fault of the call with its
/// place. The lowest step that finds a fault decides: the verb's name, the form of its arguments, `.by` on a grouped
/// table, the arguments from the left, a grouping column that would be written, and two columns of one name. The verbs are
/// dplyr's and tidyr's `filter`, `mutate`, `select`, `rename`, `relocate`, `group_by`, `ungroup`, `drop_na` and `replace_na`;
/// the right table `_y` is for joins, which are not built yet. The verb suits the shape: its parts fit the columns, it
/// writes no grouping column, and after it names differ and the groups are columns.
pub fn check(
    alloc: Global,
    call: &Call,
    x: &Shape,
    _y: Option<&Shape>,
) -> Res<(Verb, Shape), VerbFault>
    ensures given { Gives result (checked call.now x.now) }
    ensures suits { IfOk result (λ r. Suits r.0 x.now × (r.1 ≡ after r.0 x.now)) }
{
    match known_by(call.name.as_str()) {
        Known::Built(verb) => checked_verb(alloc, verb, call.at, x, call.args.as_slice()),
        Known::Later => Err(verb_fault(VerbKind::NotBuilt, call.at)),
        Known::LeftOut => Err(verb_fault(VerbKind::OutOfProfile, call.at)),
        Known::Unknown => Err(verb_fault(VerbKind::UnknownFunction, call.at)),
    }
}
