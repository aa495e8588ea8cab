ghost use Rattle.std.specs.Prelude.{◌≡◌, IfOk};

use row_table::{Mark, Schema, Table};
use scalar_value::{Duplicate, Mem, Seq, Text};
use std::marker::Model;

/// A table without its rows. Its names are distinct, and its groups are distinct names of columns.
#[derive(Debug, Drop)]
pub struct Shape {
    pub schema: Schema,
    pub groups: Seq<Text>,
    pub mark: Mark,
}

impl Model for Shape {
    ghost use Rattle.verb_forms.specs.Shapes.{ShapeValue, IsShape};

    ghost Value = { ShapeValue };

    ghost view = { λ s. record { schema = s.schema; groups = s.groups; mark = s.mark } };

    ghost invariant = { λ s. IsShape (record { schema = s.schema; groups = s.groups; mark = s.mark }) };
}

ghost use Rattle.verb_forms.specs.Shapes.{shape_of};

impl Shape {
    /// The shape of a table.
    pub fn of(x: &Table) -> Mem<Shape>
        ensures { IfOk result (λ made. made ≡ shape_of x.now) }
    {
        Ok(Shape {
            schema: x.schema.copy()?,
            groups: x.groups.copy()?,
            mark: x.mark,
        })
    }

    /// An equal shape.
    pub fn copy(&self) -> Mem<Shape>
        ensures { IfOk result (λ made. made ≡ self.now) }
    {
        Ok(Shape {
            schema: self.schema.copy()?,
            groups: self.groups.copy()?,
            mark: self.mark,
        })
    }
}

impl Duplicate for Shape {
    fn duplicate(&self) -> Mem<Shape> {
        self.copy()
    }
}
