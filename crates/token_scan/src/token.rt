ghost use Rattle.std.specs.Prelude.{◌≡◌, IfOk};

use scalar_value::{Dec6, Duplicate, Mem, Text};
use thiserror::Error;

/// A token, and the bytes of the script that it stands on: those from place `from` to before place `to`.
#[derive(Debug, Drop)]
pub struct Token {
    pub kind: TokenKind,
    pub from: u32,
    pub to: u32,
}

/// What a token says. A name is without its backquotes, a text without its quotes and with its escapes undone;
/// `Line` is a line feed.
#[derive(Debug, Drop)]
pub enum TokenKind {
    Name(Text),
    Whole(i64),
    Decimal(Dec6),
    Str(Text),
    Word(Reserved),
    Op(Oper),
    Line,
}

/// The reserved words: R's truth values, and its missing values with and without a type.
#[derive(Debug, Clone, Copy, PartialEq, Eq)]
pub enum Reserved {
    True,
    False,
    Na,
    NaInteger,
    NaReal,
    NaCharacter,
}

/// The operators, separators and parentheses of R that a script may have, the longer before those that begin them.
#[derive(Debug, Clone, Copy, PartialEq, Eq)]
pub enum Oper {
    BarPipe,
    PercentPipe,
    Assign,
    Le,
    Ge,
    Eq,
    Ne,
    Mod,
    FloorDiv,
    IsIn,
    Lt,
    Gt,
    Set,
    Add,
    Sub,
    Mul,
    Div,
    Not,
    And,
    Or,
    Tilde,
    Colon,
    LeftParen,
    RightParen,
    Comma,
    Semicolon,
}

/// A script's first fault among its tokens, and the byte place where it stands.
#[derive(Debug, Clone, Copy, PartialEq, Eq, Error)]
#[error("{kind} at byte {at}")]
pub struct ScanFault {
    pub kind: ScanKind,
    pub at: u32,
}

/// What is wrong: a character that begins no token, that is no escape or that follows a number;
/// a text or a quoted name without its end; a number past the range of its type.
#[derive(Debug, Clone, Copy, PartialEq, Eq, Error)]
pub enum ScanKind {
    #[error("unexpected character")]
    BadChar,
    #[error("unclosed text")]
    OpenText,
    #[error("number out of range")]
    NumberRange,
}

/// A place in a script as a reader counts: the line, and the character in it, both from 1.
#[derive(Debug, Clone, Copy, PartialEq, Eq)]
pub struct Place {
    pub line: u32,
    pub column: u32,
}

impl TokenKind {
    /// An equal kind.
    pub fn copy(&self) -> Mem<TokenKind>
        ensures { IfOk result (λ made. made ≡ self.now) }
    {
        match self {
            TokenKind::Name(text) => Ok(TokenKind::Name(text.copy()?)),
            TokenKind::Whole(number) => Ok(TokenKind::Whole(*number)),
            TokenKind::Decimal(number) => Ok(TokenKind::Decimal(*number)),
            TokenKind::Str(text) => Ok(TokenKind::Str(text.copy()?)),
            TokenKind::Word(word) => Ok(TokenKind::Word(*word)),
            TokenKind::Op(oper) => Ok(TokenKind::Op(*oper)),
            TokenKind::Line => Ok(TokenKind::Line),
        }
    }
}

impl Duplicate for TokenKind {
    fn duplicate(&self) -> Mem<TokenKind> {
        self.copy()
    }
}

impl Token {
    /// An equal token.
    pub fn copy(&self) -> Mem<Token>
        ensures { IfOk result (λ made. made ≡ self.now) }
    {
        Ok(Token {
            kind: self.kind.copy()?,
            from: self.from,
            to: self.to,
        })
    }
}

impl Duplicate for Token {
    fn duplicate(&self) -> Mem<Token> {
        self.copy()
    }
}
