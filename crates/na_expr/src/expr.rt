ghost use Rattle.std.specs.Prelude.{◌≡◌, IfOk};

use scalar_value::{ColType, Duplicate, Mem, Seq, Value};

/// The operators and row functions. Arguments stand in the order of the call: `IsIn` has x and then the literals,
/// `CaseWhen` each condition followed by its value and then the default where there is one.
/// `IfElse`, `CaseWhen` and `Coalesce` carry the type of their value.
#[derive(Debug, Clone, Copy, PartialEq, Eq)]
pub enum ExprFn {
    Neg,
    Add,
    Sub,
    Mul,
    Div,
    FloorDiv,
    Mod,
    Eq,
    Ne,
    Lt,
    Le,
    Gt,
    Ge,
    Not,
    And,
    Or,
    IsIn,
    IsNa,
    IfElse(ColType),
    CaseWhen(ColType),
    Coalesce(ColType),
    Between,
    Abs,
    NChar,
    Substr,
    ToUpper,
    ToLower,
    StartsWith,
    EndsWith,
    Paste0,
    Year,
    Month,
    Day,
    Wday,
    AsInteger,
    AsNumeric,
    AsCharacter,
}

/// An expression over a row: a column by its place, a literal with its type, or a call.
#[derive(Debug, Drop)]
pub enum Expr {
    Col(u32),
    Lit(Value, ColType),
    Call(ExprFn, Seq<Expr>),
}

/// Why an expression has no type: a part has a type that its call does not take, a call has arguments of another form,
/// or a column is not there.
#[derive(Debug, Clone, Copy, PartialEq, Eq)]
pub enum TypeFault {
    WrongType,
    WrongArguments,
    UnknownColumn,
}

impl Expr {
    #[cycle(copy)]
    /// An equal expression.
    pub fn copy(&self) -> Mem<Expr>
        ensures { IfOk result (λ e. e ≡ self.now) }
    {
        match self {
            Expr::Col(at) => Ok(Expr::Col(*at)),
            Expr::Lit(value, kind) => Ok(Expr::Lit(value.copy()?, *kind)),
            Expr::Call(function, args) => Ok(Expr::Call(*function, copy_all(args)?)),
        }
    }
}

#[cycle(copy)]
/// An equal list of expressions.
fn copy_all(args: &Seq<Expr>) -> Mem<Seq<Expr>>
    ensures { IfOk result (λ es. es ≡ args.now) }
{
    let mut made = Seq::new(args.alloc());
    for arg in args.as_slice() {
        made.push(arg.copy()?)?;
    }
    Ok(made)
}

impl Duplicate for Expr {
    fn duplicate(&self) -> Mem<Expr> {
        self.copy()
    }
}
