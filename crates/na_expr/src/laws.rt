ghost use Rattle.na_expr.specs.Laws.{ValuesAreTyped};

/// The law of typed expressions: on a row that fits the columns, the value of an expression that has a type is of that
/// type, or missing.
pub fn values_are_typed()
    ensures { ValuesAreTyped }
{}
