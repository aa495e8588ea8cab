ghost use Rattle.std.specs.Prelude.{◌≡◌, IfOk, [], None};
ghost use Rattle.scalar_value.specs.Gives.{Gives};
ghost use Rattle.verb_types.specs.Steps.{with_new as new_value, with_value as one_more, with_values as many_more, mutate_of as mutate_read};

use crate::columns::{columns_named, grouping, name_or_empty};
use crate::conditions::plain_part;
use na_expr::Expr;
use row_table::Schema;
use scalar_value::{ColType, Mem, Res, Seq, Text};
use std::alloc::Global;
use syntax_tree::Arg;
use term_types::{TermFault, expression_of};
use verb_arguments::is_named;
use verb_forms::{Part, Shape, Verb, with_column};

/// What `mutate` has so far: the columns of `.by`, the columns that the next expression sees, and the expressions.
#[derive(Debug, Drop)]
pub struct Values {
    pub columns: Option<Seq<u32>>,
    pub schema: Schema,
    pub values: Seq<(Text, Part)>,
}

fn with_new(alloc: Global, had: Values, name: Text, value: (Expr, ColType)) -> Mem<Values>
    ensures { IfOk result (λ now. now ≡ new_value had name value) }
{
    let Values {
        columns,
        schema,
        mut values,
    } = had;
    let schema = with_column(&name, value.1, schema)?;
    values.push((name, plain_part(alloc, value.0)))?;
    Ok(Values {
        columns,
        schema,
        values,
    })
}

fn with_value(alloc: Global, schema: &Schema, mut had: Values, arg: &Arg) -> Res<Values, TermFault>
    ensures { Gives result (one_more schema.now had arg.now) }
{
    if is_named(".by", arg) {
        had.columns = Some(columns_named(alloc, schema, &arg.value)?);
        return Ok(had);
    }
    let value = expression_of(alloc, &had.schema, &arg.value)?;
    Ok(with_new(alloc, had, name_or_empty(alloc, arg)?, value)?)
}

fn values_of(alloc: Global, schema: &Schema, args: &[Arg]) -> Res<Values, TermFault>
    ensures { Gives result (many_more schema.now (record { columns = None; schema = schema.now; values = [] }) args.now) }
{
    let mut had = Values {
        columns: None,
        schema: schema.copy()?,
        values: Seq::new(alloc),
    };
    for arg in args {
        had = with_value(alloc, schema, had, arg)?;
    }
    Ok(had)
}

/// The `mutate` of these arguments.
pub fn mutate_of(alloc: Global, x: &Shape, args: &[Arg]) -> Res<Verb, TermFault>
    ensures { Gives result (mutate_read x.now args.now) }
{
    let Values {
        columns,
        values,
        ..
    } = values_of(alloc, &x.schema, args)?;
    Ok(Verb::Mutate {
        by: grouping(alloc, x, columns)?,
        values,
    })
}
