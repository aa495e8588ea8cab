ghost use Rattle.std.specs.Prelude.{◌≡◌, Ok, IfErr};
ghost use Rattle.scalar_value.specs.Gives.{Gives};
ghost use Rattle.scalar_value.specs.declared.memory.Or.TheVariants.{Memory};
ghost use Rattle.verb_forms.specs.Shapes.{shape_of};
ghost use Rattle.verb_forms.specs.Suits.{Suits};
ghost use Rattle.verb_meaning.specs.Meaning.{meaning};

use crate::rows::rows_after;
use row_table::Table;
use scalar_value::Res;
use std::alloc::Global;
use verb_forms::{PivotFault, Verb, shape_after};

/// The table after a verb of dplyr or tidyr, as their function references have it: filter keeps the rows on which every
/// condition is TRUE; mutate gives each row the values of its expressions, one after the other; select, rename and relocate
/// pick columns; group_by and ungroup change the groups alone; drop_na keeps the rows without missing values in its columns,
/// and replace_na puts other values in their place. `y` is the right table of a join, and is not looked at for these verbs.
///
/// The verb suits the shape of `x`, as the check of a script promises; the other verbs suit none yet. The only error is
/// want of memory.
pub fn run_verb(alloc: Global, verb: &Verb, x: &Table, _y: Option<&Table>) -> Res<Table, PivotFault>
    requires { Suits verb.now (shape_of x.now) }
    ensures given { Gives result (Ok (meaning verb.now x.now)) }
    ensures no_fault { IfErr result (λ e. e ≡ Memory) }
{
    let (schema, groups, mark) = shape_after(alloc, verb, &x.schema, &x.groups, x.mark)?;
    let rows = rows_after(alloc, verb, &x.schema, &x.rows)?;
    Ok(Table {
        schema,
        groups,
        mark,
        rows,
    })
}
