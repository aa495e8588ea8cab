ghost use Rattle.std.specs.Prelude.{◌≡◌, IfOk};

use scalar_value::{ColType, Duplicate, Mem, Seq, Text};

/// A column: its name and the type of its values.
#[derive(Debug, Drop)]
pub struct Field {
    pub name: Text,
    pub kind: ColType,
}

/// The columns of a table, from the left.
pub type Schema = Seq<Field>;

impl Field {
    /// An equal column.
    pub fn copy(&self) -> Mem<Field>
        ensures { IfOk result (λ f. f ≡ self.now) }
    {
        Ok(Field {
            name: self.name.copy()?,
            kind: self.kind,
        })
    }
}

impl Duplicate for Field {
    fn duplicate(&self) -> Mem<Field> {
        self.copy()
    }
}
