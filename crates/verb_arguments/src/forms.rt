ghost use Rattle.std.specs.Prelude.{◌≡◌, ◌∷◌, [], ◌||◌, ◌&&◌, IfOk, filter, codes, false};
ghost use Rattle.std.specs.List.{list_all, list_any};
ghost use Rattle.std.specs.Option.{option_copied};
ghost use Rattle.verb_arguments.specs.Arguments.{is_named as has_this_name, at_most_once as once, value_of, is_column as column_term, is_column_argument as column_argument, is_names as is_names_term};
ghost use Rattle.verb_arguments.specs.Forms.{by, is_truth as truth_term, has_option as option_suits, others, is_condition as condition_argument, is_new_name as name_is_new, is_new_column as new_column_argument, is_renaming as renaming_argument, is_selector as selector_argument, is_anchor as anchor_argument, is_replacement as replacement_argument, are_replacements as replacement_arguments, is_one_list as one_list, has_form as suits_form};
ghost use Rattle.verb_arguments.specs.Working.{option_form as form_of_option, option_left, anchors_left};

use crate::arguments::{
    are_column_arguments, arguments_of, has_literal_form, is_column, is_column_argument, is_named,
    is_names, is_pipeline, is_unnamed, truth_of,
};
use crate::names::VerbName;
use row_table::Schema;
use scalar_value::{Mem, Seq, Text};
use selections::selector_of;
use std::alloc::Global;
use syntax_tree::{Arg, Term};

/// What the value of an option is: one name or `c(..)` of names, or a truth value.
#[derive(Debug, Clone, Copy, PartialEq, Eq)]
pub enum OptionForm {
    Names,
    Truth,
}

fn is_truth(term: &Term) -> bool
    ensures { result ≡ truth_term term.now }
{
    truth_of(term).is_some()
}

fn option_form(form: OptionForm, term: &Term) -> bool
    ensures { result ≡ form_of_option form term.now }
{
    match form {
        OptionForm::Names => is_names(term),
        OptionForm::Truth => is_truth(term),
    }
}

/// Whether the option of this name stands at most once, with a value of its form.
fn has_option(name: &str, form: OptionForm, args: &[Arg]) -> bool
    ensures { result ≡ option_left false name.now (form_of_option form) args.now }
{
    let mut had = false;
    for arg in args {
        if is_named(name, arg) {
            if had || !option_form(form, &arg.value) {
                return false;
            }
            had = true;
        }
    }
    true
}

#[tactic(auto, using(crate::proofs::Options::option_read))]
/// Whether `.by` stands at most once, with names.
fn has_by_option(args: &[Arg]) -> bool
    ensures { result ≡ option_suits by is_names_term args.now }
{
    has_option(".by", OptionForm::Names, args)
}

#[tactic(auto, using(crate::proofs::Options::option_read))]
/// Whether `.add` stands at most once, with a truth value.
fn has_add_option(args: &[Arg]) -> bool
    ensures { result ≡ option_suits (codes ".add") truth_term args.now }
{
    has_option(".add", OptionForm::Truth, args)
}

fn is_condition(arg: &Arg) -> bool
    ensures { result ≡ condition_argument arg.now }
{
    is_unnamed(arg) && !is_pipeline(&arg.value)
}

fn is_new_name(name: &Option<Text>) -> bool
    ensures { result ≡ name_is_new name.now }
{
    match name {
        Some(name) => {
            let name = name.as_str();
            !(name == ".keep" || name == ".before" || name == ".after")
        }
        None => false,
    }
}

fn is_new_column(arg: &Arg) -> bool
    ensures { result ≡ new_column_argument arg.now }
{
    is_new_name(&arg.name) && !is_pipeline(&arg.value)
}

fn is_by_or_condition(arg: &Arg) -> bool
    ensures { result ≡ (list_any (λ name. has_this_name name arg.now) (by ∷ []) || condition_argument arg.now) }
{
    is_named(".by", arg) || is_condition(arg)
}

fn is_by_or_new_column(arg: &Arg) -> bool
    ensures { result ≡ (list_any (λ name. has_this_name name arg.now) (by ∷ []) || new_column_argument arg.now) }
{
    is_named(".by", arg) || is_new_column(arg)
}

fn is_add_or_column(arg: &Arg) -> bool
    ensures { result ≡ (list_any (λ name. has_this_name name arg.now) (codes ".add" ∷ []) || column_argument arg.now) }
{
    is_named(".add", arg) || is_column_argument(arg)
}

fn are_conditions(args: &[Arg]) -> bool
    ensures { result ≡ others (by ∷ []) condition_argument args.now }
{
    args.iter().all(|arg| is_by_or_condition(arg))
}

fn has_filter_form(args: &[Arg]) -> bool
    ensures { result ≡ (option_suits by is_names_term args.now && others (by ∷ []) condition_argument args.now) }
{
    has_by_option(args) && are_conditions(args)
}

fn are_new_columns(args: &[Arg]) -> bool
    ensures { result ≡ others (by ∷ []) new_column_argument args.now }
{
    args.iter().all(|arg| is_by_or_new_column(arg))
}

fn has_mutate_form(args: &[Arg]) -> bool
    ensures { result ≡ (option_suits by is_names_term args.now && others (by ∷ []) new_column_argument args.now) }
{
    has_by_option(args) && are_new_columns(args)
}

fn are_added_columns(args: &[Arg]) -> bool
    ensures { result ≡ others (codes ".add" ∷ []) column_argument args.now }
{
    args.iter().all(|arg| is_add_or_column(arg))
}

fn has_group_by_form(args: &[Arg]) -> bool
    ensures { result ≡ (option_suits (codes ".add") truth_term args.now && others (codes ".add" ∷ []) column_argument args.now) }
{
    has_add_option(args) && are_added_columns(args)
}

fn is_renaming(arg: &Arg) -> bool
    ensures { result ≡ renaming_argument arg.now }
{
    !is_unnamed(arg) && is_column(&arg.value)
}

fn are_renamings(args: &[Arg]) -> bool
    ensures { result ≡ list_all renaming_argument args.now }
{
    args.iter().all(|arg| is_renaming(arg))
}

fn is_selector(alloc: Global, schema: &Schema, arg: &Arg) -> Mem<bool>
    ensures { IfOk result (λ b. b ≡ selector_argument schema.now arg.now) }
{
    if is_unnamed(arg) {
        Ok(selector_of(alloc, schema, &arg.value)?.form)
    } else {
        Ok(false)
    }
}

fn is_choice(alloc: Global, schema: &Schema, arg: &Arg) -> Mem<bool>
    ensures { IfOk result (λ b. b ≡ (selector_argument schema.now arg.now || renaming_argument arg.now)) }
{
    Ok(is_selector(alloc, schema, arg)? || is_renaming(arg))
}

fn has_select_form(alloc: Global, schema: &Schema, args: &[Arg]) -> Mem<bool>
    ensures { IfOk result (λ b. b ≡ list_all (λ a. selector_argument schema.now a || renaming_argument a) args.now) }
{
    for arg in args {
        if !is_choice(alloc, schema, arg)? {
            return Ok(false);
        }
    }
    Ok(true)
}

fn is_anchor(arg: &Arg) -> bool
    ensures { result ≡ anchor_argument arg.now }
{
    is_named(".before", arg) || is_named(".after", arg)
}

fn has_few_anchors(args: &[Arg]) -> bool
    ensures { result ≡ anchors_left false args.now }
{
    let mut had = false;
    for arg in args {
        if is_anchor(arg) {
            if had {
                return false;
            }
            had = true;
        }
    }
    true
}

#[tactic(auto, using(crate::proofs::Options::anchors_read))]
/// Whether at most one anchor is told.
fn has_one_anchor(args: &[Arg]) -> bool
    ensures { result ≡ once (filter anchor_argument args.now) }
{
    has_few_anchors(args)
}

fn is_move(alloc: Global, schema: &Schema, arg: &Arg) -> Mem<bool>
    ensures { IfOk result (λ b. b ≡ ((anchor_argument arg.now && column_term (value_of arg.now)) || selector_argument schema.now arg.now)) }
{
    Ok((is_anchor(arg) && is_column(&arg.value)) || is_selector(alloc, schema, arg)?)
}

fn are_moves(alloc: Global, schema: &Schema, args: &[Arg]) -> Mem<bool>
    ensures { IfOk result (λ b. b ≡ list_all (λ a. (anchor_argument a && column_term (value_of a)) || selector_argument schema.now a) args.now) }
{
    for arg in args {
        if !is_move(alloc, schema, arg)? {
            return Ok(false);
        }
    }
    Ok(true)
}

fn is_replacement(arg: &Arg) -> bool
    ensures { result ≡ replacement_argument arg.now }
{
    !is_unnamed(arg) && has_literal_form(&arg.value)
}

fn all_replacements(args: &[Arg]) -> bool
    ensures { result ≡ list_all replacement_argument args.now }
{
    args.iter().all(|arg| is_replacement(arg))
}

fn are_replacements(args: Option<&Seq<Arg>>) -> bool
    ensures { result ≡ replacement_arguments (option_copied args.entry) }
{
    match args {
        Some(args) => all_replacements(args.as_slice()),
        None => false,
    }
}

/// Whether the arguments are one `list(column = literal, ..)`.
fn is_one_list(args: &[Arg]) -> bool
    ensures { result ≡ one_list args.now }
{
    match args {
        [arg] => is_unnamed(arg) && are_replacements(arguments_of("list", &arg.value)),
        _ => false,
    }
}

/// Whether a verb's arguments have its form.
pub fn has_form(alloc: Global, verb: VerbName, schema: &Schema, args: &[Arg]) -> Mem<bool>
    ensures { IfOk result (λ b. b ≡ suits_form verb schema.now args.now) }
{
    match verb {
        VerbName::Filter => Ok(has_filter_form(args)),
        VerbName::Mutate => Ok(has_mutate_form(args)),
        VerbName::Select => has_select_form(alloc, schema, args),
        VerbName::Rename => Ok(are_renamings(args)),
        VerbName::Relocate => Ok(has_one_anchor(args) && are_moves(alloc, schema, args)?),
        VerbName::GroupBy => Ok(has_group_by_form(args)),
        VerbName::Ungroup => Ok(args.is_empty()),
        VerbName::DropNa => Ok(are_column_arguments(args)),
        VerbName::ReplaceNa => Ok(is_one_list(args)),
    }
}
