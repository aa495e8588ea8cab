ghost use Rattle.std.specs.Prelude.{◌≡◌, IfOk};
ghost use Rattle.group_rules.specs.Groups.{selected_groups};
ghost use Rattle.verb_forms.specs.Columns.{renamings as pairs_of};
ghost use Rattle.verb_forms.specs.After.{part_kind as kind_of_part, with_part as column_of_part, with_parts as columns_of_parts, after};

use crate::columns::{chosen_columns, names_at, renamings, with_column};
use crate::part::Part;
use crate::verb::Verb;
use group_rules::after_select;
use na_expr::type_of;
use row_table::{Mark, Schema};
use scalar_value::{ColType, Mem, Seq, Text};
use std::alloc::Global;

/// The type of an expression over these columns, and `Lgl` where it has none.
fn part_kind(part: &Part, schema: &Schema) -> ColType
    ensures { result ≡ kind_of_part schema.now part.now }
{
    match type_of(&part.value, schema) {
        Ok(kind) => kind,
        Err(_) => ColType::Lgl,
    }
}

/// The columns after one expression of `mutate`, where the old ones are moved: a new column last, and one whose name is
/// there in its place. The only error is want of memory.
pub fn with_part(value: &(Text, Part), schema: Schema) -> Mem<Schema>
    ensures { IfOk result (λ made. made ≡ column_of_part schema value.now) }
{
    let kind = part_kind(&value.1, &schema);
    with_column(&value.0, kind, schema)
}

fn with_parts(values: &[(Text, Part)], schema: Schema) -> Mem<Schema>
    ensures { IfOk result (λ made. made ≡ columns_of_parts schema values.now) }
{
    let mut schema = schema;
    for value in values {
        schema = with_part(value, schema)?;
    }
    Ok(schema)
}

fn chosen_groups(
    alloc: Global,
    schema: &Schema,
    groups: &Seq<Text>,
    chosen: &[(u32, Text)],
) -> Mem<Seq<Text>>
    ensures { IfOk result (λ made. made ≡ selected_groups (pairs_of schema.now chosen.now) groups.now) }
{
    after_select(alloc, groups, &renamings(alloc, schema, chosen)?)
}

/// The columns, groups and mark after a verb that suits the shape, as dplyr has them. A shape is lent in its parts, and
/// given in them: whether the names of the result are distinct is for the caller to test. The only error is want of memory.
pub fn shape_after(
    alloc: Global,
    verb: &Verb,
    schema: &Schema,
    groups: &Seq<Text>,
    mark: Mark,
) -> Mem<(Schema, Seq<Text>, Mark)>
    ensures { IfOk result (λ made. record { schema = made.0; groups = made.1; mark = made.2 } ≡ after verb.now (record { schema = schema.now; groups = groups.now; mark = mark })) }
{
    match verb {
        Verb::Mutate { values, .. } => {
            let made = with_parts(values.as_slice(), schema.copy()?)?;
            Ok((made, groups.copy()?, mark))
        }
        Verb::Select(chosen) | Verb::Rename(chosen) | Verb::Relocate(chosen) => {
            let made = chosen_columns(alloc, schema, chosen.as_slice())?;
            let kept = chosen_groups(alloc, schema, groups, chosen.as_slice())?;
            Ok((made, kept, mark))
        }
        Verb::GroupBy(columns) => Ok((schema.copy()?, names_at(alloc, schema, columns)?, mark)),
        Verb::Ungroup => Ok((schema.copy()?, Seq::new(alloc), mark)),
        _ => Ok((schema.copy()?, groups.copy()?, mark)),
    }
}
