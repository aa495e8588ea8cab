ghost use Rattle.std.specs.Prelude.{◌≡◌};
ghost use Rattle.scalar_value.specs.declared.memory.Or.TheVariants.{Fault};
ghost use Rattle.term_calls.specs.Faults.{kind_of_fault};

use na_expr::TypeFault;
use scalar_value::Or;

/// The first fault of an expression, and the byte place where it stands.
#[derive(Debug, Clone, Copy, PartialEq, Eq)]
pub struct TermFault {
    pub kind: TermFaultKind,
    pub at: u32,
}

/// What is wrong with an expression: a name that no column has, a function that is not there, one that is left out,
/// arguments of another form or type than is asked, or an aggregate or window call, which is not built yet.
#[derive(Debug, Clone, Copy, PartialEq, Eq)]
pub enum TermFaultKind {
    UnknownColumn,
    UnknownFunction,
    OutOfProfile,
    WrongArguments,
    WrongType,
    NotBuilt,
}

/// A fault of this kind at this byte place.
pub fn fault_at(kind: TermFaultKind, at: u32) -> Or<TermFault>
    ensures { result ≡ Fault (record { kind = kind; at = at }) }
{
    Or::Fault(TermFault { kind, at })
}

/// The fault of a call's types, at the call.
pub fn type_fault(fault: TypeFault, at: u32) -> Or<TermFault>
    ensures { result ≡ Fault (record { kind = kind_of_fault fault; at = at }) }
{
    let kind = match fault {
        TypeFault::WrongType => TermFaultKind::WrongType,
        TypeFault::WrongArguments => TermFaultKind::WrongArguments,
        TypeFault::UnknownColumn => TermFaultKind::UnknownColumn,
    };
    Or::Fault(TermFault { kind, at })
}
