ghost use Rattle.std.specs.Prelude.{◌≡◌};
ghost use Rattle.std.specs.Option.{SomeIff};
ghost use Rattle.scalar_value.specs.Decimals.{IsDec, dec_of_text};

use crate::dec_text::text_size;
use std::marker::Model;

/// The greatest number of millionths that a decimal has, in size.
pub const DEC_LIMIT: i64 = 999_999_999_999_999_999;

/// A decimal number of six digits behind the point: a whole number of millionths, of at most 10^18 - 1 in size.
/// Contracts see it as that whole number.
#[derive(Debug, Clone, Copy, PartialEq, Eq, PartialOrd, Ord, Hash)]
pub struct Dec6 {
    millionths: i64,
}

impl Model for Dec6 {
    ghost use Rattle.std.specs.Prelude.{ℤ};
    ghost use Rattle.scalar_value.specs.Decimals.{IsDec};

    ghost Value = { ℤ };

    ghost view = { λ d. d.millionths };

    ghost invariant = { λ d. IsDec d.millionths };

    ghost inverse = { λ z. record { millionths = z } };
}

impl Dec6 {
    /// The decimal of so many millionths, and none exactly where their size passes 10^18 - 1.
    pub fn of(millionths: i64) -> Option<Dec6>
        ensures { SomeIff result (IsDec millionths) millionths }
    {
        if -DEC_LIMIT <= millionths && millionths <= DEC_LIMIT {
            Some(Dec6 { millionths })
        } else {
            None
        }
    }

    /// The decimal that a text stands for: `-` or not, digits, and then a point and one to six digits or not.
    /// None exactly where the text has another form, the empty text and `NA` among them, or the number is too large.
    pub fn parse(s: &str) -> Option<Dec6>
        ensures { result ≡ dec_of_text s.now }
    {
        match s.strip_prefix('-') {
            Some(rest) => match text_size(rest) {
                Some(size) => Dec6::of(-(size as i64)),
                None => None,
            },
            None => match text_size(s) {
                Some(size) => Dec6::of(size as i64),
                None => None,
            },
        }
    }

    /// The number of millionths.
    pub fn millionths(self) -> i64
        ensures value { result ≡ self }
        ensures limited { IsDec self }
    {
        self.millionths
    }
}
