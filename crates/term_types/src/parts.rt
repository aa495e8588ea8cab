ghost use Rattle.std.specs.Prelude.{◌≡◌, ◌∷◌, ◌++◌, [], IfOk, map};
ghost use Rattle.term_types.specs.Parts.{parts_list};
ghost use Rattle.term_calls.specs.Calls.{piece_of_part};

use scalar_value::{Mem, Seq};
use std::alloc::Global;
use term_calls::{Part, Piece};

/// The parts of a call by their number, so that each can be moved out.
#[derive(Debug, Drop)]
pub enum Parts {
    None,
    One(Part),
    Two(Part, Part),
    Three(Part, Part, Part),
    More(Part, Part, Part, Part, Seq<Part>),
}

impl Parts {
    /// These parts with one more behind them.
    fn with(self, alloc: Global, part: Part) -> Mem<Parts>
        ensures { IfOk result (λ made. parts_list made ≡ parts_list self ++ part ∷ []) }
    {
        match self {
            Parts::None => Ok(Parts::One(part)),
            Parts::One(a) => Ok(Parts::Two(a, part)),
            Parts::Two(a, b) => Ok(Parts::Three(a, b, part)),
            Parts::Three(a, b, c) => Ok(Parts::More(a, b, c, part, Seq::new(alloc))),
            Parts::More(a, b, c, d, mut rest) => {
                rest.push(part)?;
                Ok(Parts::More(a, b, c, d, rest))
            }
        }
    }

    /// The parts of a list.
    pub fn of(alloc: Global, list: Seq<Part>) -> Mem<Parts>
        ensures { IfOk result (λ made. parts_list made ≡ list) }
    {
        let mut made = Parts::None;
        for part in list.into_vec() {
            made = made.with(alloc, part)?;
        }
        Ok(made)
    }
}

/// The parts without their places.
pub fn pieces_of(alloc: Global, list: Seq<Part>) -> Mem<Seq<Piece>>
    ensures { IfOk result (λ made. made ≡ map piece_of_part list) }
{
    let mut made = Seq::new(alloc);
    for part in list.into_vec() {
        made.push(part.1)?;
    }
    Ok(made)
}
