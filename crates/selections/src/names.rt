ghost use Rattle.std.specs.Prelude.{◌≡◌, ◌++◌, ◌∷◌, [], nat_eq, IfOk, OnOk, if◌then◌else◌};
ghost use Rattle.std.specs.List.{starts_with, ends_with};
ghost use Rattle.selections.specs.Columns.{lowered, contains_text, passes as test_passes, places_that};

use crate::places::as_place;
use row_table::Schema;
use scalar_value::{Mem, Seq};
use std::alloc::Global;

/// How the name of a column stands to a text.
#[derive(Debug, Clone, Copy, PartialEq, Eq)]
pub enum NameTest {
    StartsWith,
    EndsWith,
    Contains,
}

/// Whether a name begins with a text, where the case of ASCII letters does not matter.
fn begins_with(name: &[u8], text: &[u8]) -> bool
    ensures { result ≡ starts_with nat_eq (lowered name.now) (lowered text.now) }
{
    text.len() <= name.len() && name[..text.len()].eq_ignore_ascii_case(text)
}

/// Whether a name closes with a text, where the case of ASCII letters does not matter.
fn closes_with(name: &[u8], text: &[u8]) -> bool
    ensures { result ≡ ends_with nat_eq (lowered name.now) (lowered text.now) }
{
    text.len() <= name.len() && name[name.len() - text.len()..].eq_ignore_ascii_case(text)
}

/// Whether a text stands in a name, where the case of ASCII letters does not matter.
fn stands_in(text: &[u8], name: &[u8]) -> bool
    ensures { result ≡ contains_text (lowered text.now) (lowered name.now) }
{
    for start in 0..name.len() {
        if begins_with(&name[start..], text) {
            return true;
        }
    }
    text.is_empty()
}

/// Whether a name passes a test with a text.
fn passes(test: NameTest, text: &[u8], name: &[u8]) -> bool
    ensures { result ≡ test_passes test (lowered text.now) (lowered name.now) }
{
    match test {
        NameTest::StartsWith => begins_with(name, text),
        NameTest::EndsWith => closes_with(name, text),
        NameTest::Contains => stands_in(text, name),
    }
}

/// One place more, where it is chosen.
fn push_chosen(places: &mut Seq<u32>, chosen: bool, at: usize) -> Mem<()>
    ensures { OnOk result (places.new ≡ (if chosen then places.old ++ at ∷ [] else places.old)) }
{
    if chosen {
        places.push(as_place(at)?)?;
    }
    Ok(())
}

/// The places of the columns whose names pass a test with a text, in table order.
pub fn places_by(alloc: Global, schema: &Schema, test: NameTest, text: &str) -> Mem<Seq<u32>>
    ensures { IfOk result (λ places. places ≡ places_that (λ name. test_passes test (lowered text.now) (lowered name)) schema.now) }
{
    let text = text.as_bytes();
    let mut places = Seq::new(alloc);
    for (at, field) in schema.as_slice().iter().enumerate() {
        let chosen = passes(test, text, field.name.as_str().as_bytes());
        push_chosen(&mut places, chosen, at)?;
    }
    Ok(places)
}
