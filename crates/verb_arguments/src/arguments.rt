ghost use Rattle.std.specs.Prelude.{◌≡◌};
ghost use Rattle.std.specs.List.{list_all};
ghost use Rattle.std.specs.Option.{option_copied};
ghost use Rattle.verb_arguments.specs.Arguments.{is_named as has_this_name, is_unnamed as has_no_name, column_name as column_named, is_column as column_term, arguments_of as arguments_in, is_column_argument as column_argument, is_names as names_term, truth_of_word as truth_in, truth_of as truth_read, is_pipeline as pipeline_term, is_text as text_term, is_number as number_term, is_minus as minus_named, is_one_text as one_text, has_literal_form as literal_form};

use scalar_value::{Seq, Text};
use syntax_tree::{Arg, Term, TermKind};
use token_scan::{Oper, Reserved};

/// Whether an argument has no name.
pub fn is_unnamed(arg: &Arg) -> bool
    ensures { result ≡ has_no_name arg.now }
{
    arg.name.is_none()
}

/// Whether an argument has this name.
pub fn is_named(name: &str, arg: &Arg) -> bool
    ensures { result ≡ has_this_name name.now arg.now }
{
    match &arg.name {
        Some(own) => own.as_str() == name,
        None => false,
    }
}

/// The name that a term is.
pub fn column_name(term: &Term) -> Option<&Text>
    ensures { option_copied result ≡ column_named term.now }
{
    match &term.kind {
        TermKind::Name(name) => Some(name),
        _ => None,
    }
}

/// Whether a term is a name.
pub fn is_column(term: &Term) -> bool
    ensures { result ≡ column_term term.now }
{
    matches!(&term.kind, TermKind::Name(_))
}

/// The arguments of a term that is a call of this function.
pub fn arguments_of<'a>(name: &str, term: &'a Term) -> Option<&'a Seq<Arg>>
    ensures { option_copied result ≡ arguments_in name.now term.now }
{
    match &term.kind {
        TermKind::Call(call) => {
            if call.name.as_str() == name {
                Some(&call.args)
            } else {
                None
            }
        }
        _ => None,
    }
}

/// Whether an argument is a name alone.
pub fn is_column_argument(arg: &Arg) -> bool
    ensures { result ≡ column_argument arg.now }
{
    is_unnamed(arg) && is_column(&arg.value)
}

/// Whether arguments are names alone.
pub fn are_column_arguments(args: &[Arg]) -> bool
    ensures { result ≡ list_all column_argument args.now }
{
    args.iter().all(|arg| is_column_argument(arg))
}

/// Whether a term is one name or `c(..)` of names.
pub fn is_names(term: &Term) -> bool
    ensures { result ≡ names_term term.now }
{
    if is_column(term) {
        return true;
    }
    match arguments_of("c", term) {
        Some(args) => are_column_arguments(args.as_slice()),
        None => false,
    }
}

fn truth_of_word(word: Reserved) -> Option<bool>
    ensures { result ≡ truth_in word }
{
    match word {
        Reserved::True => Some(true),
        Reserved::False => Some(false),
        _ => None,
    }
}

/// The truth value that a term is.
pub fn truth_of(term: &Term) -> Option<bool>
    ensures { result ≡ truth_read term.now }
{
    match &term.kind {
        TermKind::Word(word) => truth_of_word(*word),
        _ => None,
    }
}

/// Whether a term is a pipeline.
pub fn is_pipeline(term: &Term) -> bool
    ensures { result ≡ pipeline_term term.now }
{
    matches!(&term.kind, TermKind::Pipe(_))
}

fn is_text(term: &Term) -> bool
    ensures { result ≡ text_term term.now }
{
    matches!(&term.kind, TermKind::Str(_))
}

fn is_number(term: &Term) -> bool
    ensures { result ≡ number_term term.now }
{
    matches!(&term.kind, TermKind::Whole(_) | TermKind::Decimal(_))
}

fn is_minus(oper: Oper) -> bool
    ensures { result ≡ minus_named oper }
{
    matches!(oper, Oper::Sub)
}

/// Whether arguments are one text.
fn is_one_text(args: Option<&Seq<Arg>>) -> bool
    ensures { result ≡ one_text (option_copied args.entry) }
{
    match args {
        Some(args) => match args.as_slice() {
            [arg] => is_unnamed(arg) && is_text(&arg.value),
            _ => false,
        },
        None => false,
    }
}

/// Whether a term has the form of a literal: a number, `-` and a number, a text, a word, or `as.Date` of a text.
pub fn has_literal_form(term: &Term) -> bool
    ensures { result ≡ literal_form term.now }
{
    match &term.kind {
        TermKind::Whole(_) | TermKind::Decimal(_) | TermKind::Str(_) | TermKind::Word(_) => true,
        TermKind::Unary(oper, operand) => is_minus(*oper) && is_number(operand.get()),
        TermKind::Call(_) => is_one_text(arguments_of("as.Date", term)),
        _ => false,
    }
}
