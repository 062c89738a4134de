// Why a call is refused, and at which node.
ghost use Rattle.std.specs.Prelude.{◌≡◌};
ghost use Rattle.answers.specs.Refusal.{number_of, fault, at_no_node};

use crate::verdict::ANCESTORS;

// Why a call is refused, with its number.
#[derive(Clone, Copy, PartialEq, Eq)]
pub enum Refusal {
    Ragged = 1,
    Long = 2,
    Level = 3,
    Span = 4,
    Order = 5,
    Cross = 6,
    Depth = 7,
    Joint = 8,
    Room = 9,
    Mark = 10,
    Stray = 11,
    Deep = 12,
    Unclosed = 13,
    Table = 14,
    Contents = 15,
    Absent = 16,
    Reading = 17,
    Links = 18,
}

impl From<Refusal> for u32 {
    ghost from_gives = { λ refusal number. number ≡ number_of refusal };

    fn from(refusal: Refusal) -> u32 {
        refusal as u32
    }
}

// A refusal, with the list that it names and the index of the faulty node there, or 0. With Reading
// it is the index of the sample.
#[derive(Clone, Copy, PartialEq, Eq)]
pub struct Fault {
    pub refusal: Refusal,
    pub list: u32,
    pub index: u32,
}

impl From<Refusal> for Fault {
    ghost from_gives = { λ refusal fault. fault ≡ at_no_node refusal };

    fn from(refusal: Refusal) -> Fault {
        Fault {
            refusal: refusal,
            list: ANCESTORS,
            index: 0,
        }
    }
}
