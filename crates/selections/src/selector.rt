ghost use Rattle.std.specs.Prelude.{◌≡◌, ◌∷◌, [], IfOk, false, if◌then◌else◌};
ghost use Rattle.term_types.specs.Terms.{place_of as place_named};
ghost use Rattle.selections.specs.Columns.{all_places as all_of_table};
ghost use Rattle.selections.specs.Selectors.{no_selector as none_read, of_columns as columns_read, column_selector as column_read, first_away as first_takes_away, selection as selected, first_place as first_of, is_minus as minus_named, is_colon as colon_named, away_of as away_read, range_columns as range_of_columns, range_of as range_read};

use crate::places::{all_places, between, place_of, with_selector};
use row_table::Schema;
use scalar_value::{Mem, Seq, Text};
use std::alloc::Global;
use term_types::{TermFault, TermFaultKind};
use token_scan::Oper;

/// What is read of a term as a selector over a table's columns: whether it is one, and a column alone; whether it takes
/// columns away; the columns that it names, or the first that is not there; and its text, where it is one.
#[derive(Debug, Drop)]
pub struct Selector {
    pub form: bool,
    pub column: bool,
    pub away: bool,
    pub columns: Result<Seq<u32>, TermFault>,
    pub text: Option<Text>,
}

/// What is read of a term that is no selector.
pub fn no_selector(alloc: Global, text: Option<Text>) -> Selector
    ensures { result ≡ none_read text }
{
    Selector {
        form: false,
        column: false,
        away: false,
        columns: Ok(Seq::new(alloc)),
        text,
    }
}

/// What is read of a term that names columns.
pub fn of_columns(form: bool, columns: Result<Seq<u32>, TermFault>) -> Selector
    ensures { result ≡ columns_read form columns }
{
    Selector {
        form,
        column: false,
        away: false,
        columns,
        text: None,
    }
}

/// One column alone.
fn one_column(alloc: Global, place: u32) -> Mem<Seq<u32>>
    ensures { IfOk result (λ places. places ≡ place ∷ []) }
{
    let mut places = Seq::new(alloc);
    places.push(place)?;
    Ok(places)
}

/// What is read of a name at a place of the script.
pub fn column_selector(alloc: Global, schema: &Schema, at: u32, name: &Text) -> Mem<Selector>
    ensures { IfOk result (λ s. s ≡ column_read at (place_named name.now schema.now)) }
{
    let columns = match place_of(schema, name)? {
        Some(place) => Ok(one_column(alloc, place)?),
        None => Err(TermFault {
            kind: TermFaultKind::UnknownColumn,
            at,
        }),
    };
    Ok(Selector {
        form: true,
        column: true,
        away: false,
        columns,
        text: None,
    })
}

/// What is chosen at the start of a selection: all columns where its first selector takes columns away, and else none.
fn at_start(alloc: Global, schema: &Schema, away: bool) -> Mem<Seq<u32>>
    ensures { IfOk result (λ places. places ≡ (if away then all_of_table schema.now else [])) }
{
    if away {
        all_places(alloc, schema)
    } else {
        Ok(Seq::new(alloc))
    }
}

fn first_away(selectors: &[Selector]) -> bool
    ensures { result ≡ first_takes_away selectors.now }
{
    match selectors {
        [first, ..] => first.away,
        [] => false,
    }
}

/// The columns of a selection, or the first that is not there.
pub fn selection(
    alloc: Global,
    schema: &Schema,
    selectors: &[Selector],
) -> Mem<Result<Seq<u32>, TermFault>>
    ensures { IfOk result (λ columns. columns ≡ selected schema.now selectors.now) }
{
    let mut had = at_start(alloc, schema, first_away(selectors))?;
    for selector in selectors {
        match &selector.columns {
            Ok(columns) => had = with_selector(alloc, had, selector.away, columns.as_slice())?,
            Err(fault) => return Ok(Err(*fault)),
        }
    }
    Ok(Ok(had))
}

/// The columns of a selection of one selector.
fn lone_selection(
    alloc: Global,
    schema: &Schema,
    selector: &Selector,
) -> Mem<Result<Seq<u32>, TermFault>>
    ensures { IfOk result (λ columns. columns ≡ selected schema.now (selector.now ∷ [])) }
{
    match &selector.columns {
        Ok(columns) => {
            let had = at_start(alloc, schema, selector.away)?;
            let chosen = with_selector(alloc, had, selector.away, columns.as_slice())?;
            Ok(Ok(chosen))
        }
        Err(fault) => Ok(Err(*fault)),
    }
}

fn is_minus(oper: Oper) -> bool
    ensures { result ≡ minus_named oper }
{
    match oper {
        Oper::Sub => true,
        _ => false,
    }
}

fn is_colon(oper: Oper) -> bool
    ensures { result ≡ colon_named oper }
{
    match oper {
        Oper::Colon => true,
        _ => false,
    }
}

/// What is read of an operator before a term.
pub fn away_of(alloc: Global, schema: &Schema, oper: Oper, operand: Selector) -> Mem<Selector>
    ensures { IfOk result (λ s. s ≡ away_read schema.now oper operand) }
{
    let columns = lone_selection(alloc, schema, &operand)?;
    Ok(Selector {
        form: is_minus(oper) && operand.form,
        column: false,
        away: true,
        columns,
        text: None,
    })
}

fn first_place(places: &[u32]) -> u32
    ensures { result ≡ first_of places.now }
{
    match places {
        [first, ..] => *first,
        [] => 0,
    }
}

/// The columns from one to another, or the first of the two that is not there.
fn range_columns(
    alloc: Global,
    schema: &Schema,
    first: &Result<Seq<u32>, TermFault>,
    second: &Result<Seq<u32>, TermFault>,
) -> Mem<Result<Seq<u32>, TermFault>>
    ensures { IfOk result (λ columns. columns ≡ range_of_columns schema.now first.now second.now) }
{
    match (first, second) {
        (Err(fault), _) => Ok(Err(*fault)),
        (Ok(_), Err(fault)) => Ok(Err(*fault)),
        (Ok(a), Ok(b)) => {
            let (from, to) = (first_place(a.as_slice()), first_place(b.as_slice()));
            Ok(Ok(between(alloc, schema, from, to)?))
        }
    }
}

/// What is read of an operator between two terms.
pub fn range_of(
    alloc: Global,
    schema: &Schema,
    oper: Oper,
    first: Selector,
    second: Selector,
) -> Mem<Selector>
    ensures { IfOk result (λ s. s ≡ range_read schema.now oper first second) }
{
    let form = is_colon(oper) && first.column && second.column;
    let columns = range_columns(alloc, schema, &first.columns, &second.columns)?;
    Ok(of_columns(form, columns))
}
