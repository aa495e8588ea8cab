ghost use Rattle.std.specs.Prelude.{◌≡◌};
ghost use Rattle.script_session.specs.FaultLines.{verb_text, kind_text};
ghost use Rattle.script_session.specs.ReadScript.{not_text};

use token_scan::Place;
use verb_types::VerbKind;

/// A script's first fault, and the place where it stands.
#[derive(Debug, Clone, Copy, PartialEq, Eq)]
pub struct ScriptFault {
    pub kind: ScriptKind,
    pub place: Place,
}

/// What is wrong with a script: it isn't UTF-8; it isn't made of tokens; its tokens don't follow the grammar, go on
/// too deep or end too early; a verb's call has a fault; or a plan would have too many nodes.
#[derive(Debug, Clone, Copy, PartialEq, Eq)]
pub enum ScriptKind {
    NotText,
    BadChar,
    OpenText,
    NumberRange,
    Unexpected,
    Unfinished,
    TooDeep,
    Verb(VerbKind),
    PlanTooLarge,
}

// The word by which a fault's line tells a verb's fault.
fn verb_text(kind: VerbKind) -> &'static str
    ensures { result.now ≡ verb_text kind }
{
    match kind {
        VerbKind::UnknownTable => "UnknownTable",
        VerbKind::UnknownColumn => "UnknownColumn",
        VerbKind::UnknownFunction => "UnknownFunction",
        VerbKind::WrongType => "WrongType",
        VerbKind::WrongArguments => "WrongArguments",
        VerbKind::DuplicateName => "DuplicateName",
        VerbKind::GroupChanged => "GroupChanged",
        VerbKind::ByOnGroups => "ByOnGroups",
        VerbKind::NotSummary => "NotSummary",
        VerbKind::SummaryReuse => "SummaryReuse",
        VerbKind::NoCommonKey => "NoCommonKey",
        VerbKind::NoOrdering => "NoOrdering",
        VerbKind::GroupGone => "GroupGone",
        VerbKind::OutOfProfile => "OutOfProfile",
        VerbKind::NotBuilt => "NotBuilt",
    }
}

impl ScriptKind {
    /// The word by which a fault's line tells the kind.
    pub fn text(self) -> &'static str
        ensures { result.now ≡ kind_text self }
    {
        match self {
            ScriptKind::NotText => "NotText",
            ScriptKind::BadChar => "BadChar",
            ScriptKind::OpenText => "OpenText",
            ScriptKind::NumberRange => "NumberRange",
            ScriptKind::Unexpected => "Unexpected",
            ScriptKind::Unfinished => "Unfinished",
            ScriptKind::TooDeep => "TooDeep",
            ScriptKind::Verb(kind) => verb_text(kind),
            ScriptKind::PlanTooLarge => "PlanTooLarge",
        }
    }
}

impl ScriptFault {
    /// The fault of a script that isn't UTF-8, which stands at its start.
    pub fn not_text() -> ScriptFault
        ensures { result ≡ not_text }
    {
        ScriptFault {
            kind: ScriptKind::NotText,
            place: Place { line: 1, column: 1 },
        }
    }
}
