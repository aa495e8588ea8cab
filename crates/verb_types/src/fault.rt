ghost use Rattle.std.specs.Prelude.{◌≡◌};
ghost use Rattle.scalar_value.specs.declared.memory.Or.TheVariants.{Fault};
ghost use Rattle.verb_types.specs.Checks.{verb_kind as kind_of_verb};

use scalar_value::Or;
use term_types::{TermFault, TermFaultKind};
use thiserror::Error;

/// The first fault of a verb's call, and the byte place where it stands.
#[derive(Debug, Clone, Copy, PartialEq, Eq, Error)]
#[error("{kind} at byte {at}")]
pub struct VerbFault {
    pub kind: VerbKind,
    pub at: u32,
}

/// What is wrong with a pipeline or a verb's call.
#[derive(Debug, Clone, Copy, PartialEq, Eq, Error)]
pub enum VerbKind {
    #[error("unknown table")]
    UnknownTable,
    #[error("unknown column")]
    UnknownColumn,
    #[error("unknown function")]
    UnknownFunction,
    #[error("wrong type")]
    WrongType,
    #[error("wrong arguments")]
    WrongArguments,
    #[error("two columns of one name")]
    DuplicateName,
    #[error("a grouping column would be changed")]
    GroupChanged,
    #[error(".by on a grouped table")]
    ByOnGroups,
    #[error("no aggregate")]
    NotSummary,
    #[error("a result is used again")]
    SummaryReuse,
    #[error("no common key")]
    NoCommonKey,
    #[error("no ordering")]
    NoOrdering,
    #[error("a grouping column would be taken away")]
    GroupGone,
    #[error("left out")]
    OutOfProfile,
    #[error("not built yet")]
    NotBuilt,
}

/// A fault of the arguments at a place.
pub fn term_fault(kind: TermFaultKind, at: u32) -> Or<TermFault>
    ensures { result ≡ Fault (record { kind = kind; at = at }) }
{
    Or::Fault(TermFault { kind, at })
}

/// A fault of the call at a place.
pub fn verb_fault(kind: VerbKind, at: u32) -> Or<VerbFault>
    ensures { result ≡ Fault (record { kind = kind; at = at }) }
{
    Or::Fault(VerbFault { kind, at })
}

/// A fault of the arguments as one of the call.
pub fn verb_kind(kind: TermFaultKind) -> VerbKind
    ensures { result ≡ kind_of_verb kind }
{
    match kind {
        TermFaultKind::UnknownColumn => VerbKind::UnknownColumn,
        TermFaultKind::UnknownFunction => VerbKind::UnknownFunction,
        TermFaultKind::OutOfProfile => VerbKind::OutOfProfile,
        TermFaultKind::WrongArguments => VerbKind::WrongArguments,
        TermFaultKind::WrongType => VerbKind::WrongType,
        TermFaultKind::NotBuilt => VerbKind::NotBuilt,
    }
}
