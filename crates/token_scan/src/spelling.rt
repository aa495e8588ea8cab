ghost use Rattle.std.specs.Prelude.{◌≡◌};
ghost use Rattle.token_scan.specs.Spelling.{spelling, oper_at, word_spelling, reserved_word};

use crate::token::{Oper, Reserved};

const OPERS: [Oper; 26] = [
    Oper::BarPipe,
    Oper::PercentPipe,
    Oper::Assign,
    Oper::Le,
    Oper::Ge,
    Oper::Eq,
    Oper::Ne,
    Oper::Mod,
    Oper::FloorDiv,
    Oper::IsIn,
    Oper::Lt,
    Oper::Gt,
    Oper::Set,
    Oper::Add,
    Oper::Sub,
    Oper::Mul,
    Oper::Div,
    Oper::Not,
    Oper::And,
    Oper::Or,
    Oper::Tilde,
    Oper::Colon,
    Oper::LeftParen,
    Oper::RightParen,
    Oper::Comma,
    Oper::Semicolon,
];

const RESERVED: [Reserved; 6] = [
    Reserved::True,
    Reserved::False,
    Reserved::Na,
    Reserved::NaInteger,
    Reserved::NaReal,
    Reserved::NaCharacter,
];

impl Oper {
    /// How the operator is spelled in a script.
    pub fn spelling(self) -> &'static str
        ensures { result.now ≡ spelling self }
    {
        match self {
            Oper::BarPipe => "|>",
            Oper::PercentPipe => "%>%",
            Oper::Assign => "<-",
            Oper::Le => "<=",
            Oper::Ge => ">=",
            Oper::Eq => "==",
            Oper::Ne => "!=",
            Oper::Mod => "%%",
            Oper::FloorDiv => "%/%",
            Oper::IsIn => "%in%",
            Oper::Lt => "<",
            Oper::Gt => ">",
            Oper::Set => "=",
            Oper::Add => "+",
            Oper::Sub => "-",
            Oper::Mul => "*",
            Oper::Div => "/",
            Oper::Not => "!",
            Oper::And => "&",
            Oper::Or => "|",
            Oper::Tilde => "~",
            Oper::Colon => ":",
            Oper::LeftParen => "(",
            Oper::RightParen => ")",
            Oper::Comma => ",",
            Oper::Semicolon => ";",
        }
    }
}

impl Reserved {
    /// How the word is spelled in a script.
    pub fn spelling(self) -> &'static str
        ensures { result.now ≡ word_spelling self }
    {
        match self {
            Reserved::True => "TRUE",
            Reserved::False => "FALSE",
            Reserved::Na => "NA",
            Reserved::NaInteger => "NA_integer_",
            Reserved::NaReal => "NA_real_",
            Reserved::NaCharacter => "NA_character_",
        }
    }
}

pub fn oper_at(bytes: &[u8]) -> Option<Oper>
    ensures { result ≡ oper_at bytes.now }
{
    OPERS
        .iter()
        .copied()
        .find(|oper| bytes.starts_with(oper.spelling().as_bytes()))
}

pub fn reserved_word(name: &str) -> Option<Reserved>
    ensures { result ≡ reserved_word name.now }
{
    RESERVED
        .iter()
        .copied()
        .find(|word| name == word.spelling())
}
