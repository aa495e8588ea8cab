ghost use Rattle.std.specs.Prelude.{◌≡◌, ◌++◌, ◌∷◌, ◌&&◌, [], None, IfOk, OnOk, map};
ghost use Rattle.std.specs.List.{list_all};
ghost use Rattle.term_types.specs.Terms.{is_none};
ghost use Rattle.selections.specs.Columns.{passes};
ghost use Rattle.selections.specs.Selectors.{selector as selector_read, called, argument, is_plain as plain_argument, values as values_of, by_one_text as one_text_read, by_text as text_read, all_columns as all_read, list_of as list_read};

use crate::names::{NameTest, places_by};
use crate::places::all_places;
use crate::selector::{
    Selector, away_of, column_selector, no_selector, of_columns, range_of, selection,
};
use row_table::Schema;
use scalar_value::{Mem, Seq, Text};
use std::alloc::Global;
use syntax_tree::{Arg, Call, Term, TermKind};

/// What is read of a term as a selector over these columns, as tidyselect reads it: a column, `a:b`, `everything()`,
/// `starts_with("s")`, `ends_with("s")` and `contains("s")`, which pass over the case of ASCII letters, `c(..)` of
/// selectors, or `-` and a selector. The columns of a list are those of a selection of its own: from the left, those of a
/// selector come behind those that are chosen, each once, those of one with `-` are taken away, and all columns are chosen
/// at the start where the first takes columns away.
///
/// A term that is none of these has no form of a selector; a name that no column has is told among the columns, with its
/// place. The only error is want of memory, in a table of more than 2^32 - 1 columns too.
#[cycle(selecting)]
pub fn selector_of(alloc: Global, schema: &Schema, term: &Term) -> Mem<Selector>
    ensures { IfOk result (λ s. s ≡ selector_read schema.now term.now) }
{
    match &term.kind {
        TermKind::Name(name) => column_selector(alloc, schema, term.at, name),
        TermKind::Str(text) => Ok(no_selector(alloc, Some(text.copy()?))),
        TermKind::Whole(_) => Ok(no_selector(alloc, None)),
        TermKind::Decimal(_) => Ok(no_selector(alloc, None)),
        TermKind::Word(_) => Ok(no_selector(alloc, None)),
        TermKind::Pipe(_) => Ok(no_selector(alloc, None)),
        TermKind::Unary(oper, operand) => {
            let operand = selector_of(alloc, schema, operand.get())?;
            away_of(alloc, schema, *oper, operand)
        }
        TermKind::Binary(oper, left, right) => {
            let first = selector_of(alloc, schema, left.get())?;
            let second = selector_of(alloc, schema, right.get())?;
            range_of(alloc, schema, *oper, first, second)
        }
        TermKind::Call(call) => call_selector(alloc, schema, call),
    }
}

#[cycle(selecting)]
/// A call, by its name.
fn call_selector(alloc: Global, schema: &Schema, call: &Call) -> Mem<Selector>
    ensures { IfOk result (λ s. s ≡ called schema.now call.now) }
{
    let name = call.name.as_str();
    if name == "c" {
        return list_of(alloc, schema, &call.args);
    }
    if name == "everything" {
        return all_columns(alloc, schema, call.args.as_slice());
    }
    if name == "starts_with" {
        return by_text(alloc, schema, NameTest::StartsWith, &call.args);
    }
    if name == "ends_with" {
        return by_text(alloc, schema, NameTest::EndsWith, &call.args);
    }
    if name == "contains" {
        return by_text(alloc, schema, NameTest::Contains, &call.args);
    }
    Ok(no_selector(alloc, None))
}

/// The arguments of a list as they are read: whether each is a selector without a name, and what is read of each.
#[derive(Debug, Drop)]
struct Arguments {
    plain: bool,
    values: Seq<Selector>,
}

fn is_plain(name: &Option<Text>, value: &Selector) -> bool
    ensures { result ≡ (is_none name.now && value.now.form) }
{
    name.is_none() && value.form
}

impl Arguments {
    /// One argument more.
    fn push(&mut self, name: &Option<Text>, value: Selector) -> Mem<()>
        ensures { OnOk result (self.new ≡ record { plain = self.old.plain && (is_none name.now && value.form); values = self.old.values ++ value ∷ [] }) }
    {
        self.plain = self.plain && is_plain(name, &value);
        self.values.push(value)?;
        Ok(())
    }
}

#[cycle(selecting)]
/// The arguments of a list.
fn arguments_of(alloc: Global, schema: &Schema, args: &Seq<Arg>) -> Mem<Arguments>
    ensures plain { IfOk result (λ made. made.plain ≡ list_all plain_argument (map (argument schema.now) args.now)) }
    ensures values { IfOk result (λ made. made.values ≡ values_of (map (argument schema.now) args.now)) }
{
    let mut made = Arguments {
        plain: true,
        values: Seq::new(alloc),
    };
    for arg in args.as_slice() {
        let value = selector_of(alloc, schema, &arg.value)?;
        made.push(&arg.name, value)?;
    }
    Ok(made)
}

#[cycle(selecting)]
/// A list of selectors.
fn list_of(alloc: Global, schema: &Schema, args: &Seq<Arg>) -> Mem<Selector>
    ensures { IfOk result (λ s. s ≡ list_read schema.now (map (argument schema.now) args.now)) }
{
    let made = arguments_of(alloc, schema, args)?;
    let columns = selection(alloc, schema, made.values.as_slice())?;
    Ok(of_columns(made.plain, columns))
}

/// All columns, where there is no argument.
fn all_columns(alloc: Global, schema: &Schema, args: &[Arg]) -> Mem<Selector>
    ensures { IfOk result (λ s. s ≡ all_read schema.now (map (argument schema.now) args.now)) }
{
    match args {
        [] => Ok(of_columns(true, Ok(all_places(alloc, schema)?))),
        [_, ..] => Ok(no_selector(alloc, None)),
    }
}

/// The columns whose names pass a test with a text, where there is a text.
fn by_one_text(alloc: Global, schema: &Schema, test: NameTest, text: Option<Text>) -> Mem<Selector>
    ensures { IfOk result (λ s. s ≡ one_text_read schema.now (passes test) None text) }
{
    match text {
        Some(text) => {
            let places = places_by(alloc, schema, test, text.as_str())?;
            Ok(of_columns(true, Ok(places)))
        }
        None => Ok(no_selector(alloc, None)),
    }
}

#[cycle(selecting)]
/// The columns whose names pass a test with the text of one argument.
fn text_argument(alloc: Global, schema: &Schema, test: NameTest, arg: &Arg) -> Mem<Selector>
    ensures { IfOk result (λ s. s ≡ one_text_read schema.now (passes test) (argument schema.now arg.now).name (argument schema.now arg.now).value.text) }
{
    match &arg.name {
        Some(_) => Ok(no_selector(alloc, None)),
        None => {
            let value = selector_of(alloc, schema, &arg.value)?;
            by_one_text(alloc, schema, test, value.text)
        }
    }
}

#[cycle(selecting)]
/// The columns whose names pass a test with the one text in the parentheses.
fn by_text(alloc: Global, schema: &Schema, test: NameTest, args: &Seq<Arg>) -> Mem<Selector>
    ensures { IfOk result (λ s. s ≡ text_read schema.now (passes test) (map (argument schema.now) args.now)) }
{
    match args.as_slice() {
        [arg] => text_argument(alloc, schema, test, arg),
        [] => Ok(no_selector(alloc, None)),
        [_, _, ..] => Ok(no_selector(alloc, None)),
    }
}
