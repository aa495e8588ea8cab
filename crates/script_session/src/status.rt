use run_report::PlanRun;
use scalar_value::{Seq, Text};

/// How a command ended.
#[derive(Debug, Clone, Copy, PartialEq, Eq)]
pub enum Status {
    /// The whole result was written.
    Done,
    /// The words are no command.
    Usage,
    /// The script is refused.
    Script,
    /// A table is refused.
    Table,
    /// A file can't be read, or is too long.
    Read,
    /// The result can't be written.
    Write,
    /// Memory was refused.
    Memory,
}

/// A refusal: its status and the line that tells it.
#[derive(Debug, Drop)]
pub struct Refusal {
    pub status: Status,
    pub line: Text,
}

/// Why there is no result: a refusal, or a read of this path that failed.
#[derive(Debug, Drop)]
pub enum Stop {
    Refused(Refusal),
    Unread(Text),
}

/// The text of a result, and the runs that gave it.
#[derive(Debug, Drop)]
pub struct Answered {
    pub text: Text,
    pub runs: Seq<PlanRun>,
}
