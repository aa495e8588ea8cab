use thiserror::Error;

/// A script's first fault of grammar, and the byte place where it stands.
#[derive(Debug, Clone, Copy, PartialEq, Eq, Error)]
#[error("{kind} at byte {at}")]
pub struct SyntaxFault {
    pub kind: SyntaxKind,
    pub at: u32,
}

/// What is wrong: a token with which no script goes on; an end where the tokens only begin a script;
/// a token that opens one level too many, or is one binary operator too many of an argument.
#[derive(Debug, Clone, Copy, PartialEq, Eq, Error)]
pub enum SyntaxKind {
    #[error("unexpected token")]
    Unexpected,
    #[error("unfinished script")]
    Unfinished,
    #[error("nested too deep")]
    TooDeep,
}
