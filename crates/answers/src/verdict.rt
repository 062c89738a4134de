// What a check answers, and what a call answers that counts what it wrote.
ghost use Rattle.std.specs.Prelude.{◌≡◌};
ghost use Rattle.answers.specs.Refusal.{verdict_of, verdict_in, counted_in};

use crate::answer::TAKEN;
use crate::refusal::Fault;

// The lists that an answer may name.
pub const ANCESTORS: u32 = 0;

pub const DESCENDANTS: u32 = 1;

// The answer of a check: its number, the list that it names, and the index of the faulty node in
// that list, or 0. With READING it is the index of the sample.
#[repr(C)]
#[derive(Clone, Copy)]
pub struct Verdict {
    pub answer: u32,
    pub list: u32,
    pub index: u32,
}

// The answer of a call that writes: its verdict, and the count of what it wrote, 0 on refusal.
#[repr(C)]
#[derive(Clone, Copy)]
pub struct Counted {
    pub verdict: Verdict,
    pub count: usize,
}

impl From<Fault> for Verdict {
    ghost from_gives = { λ fault verdict. verdict ≡ verdict_of fault };

    fn from(fault: Fault) -> Verdict {
        Verdict {
            answer: fault.refusal.into(),
            list: fault.list,
            index: fault.index,
        }
    }
}

impl From<Result<(), Fault>> for Verdict {
    ghost from_gives = { λ checked verdict. verdict ≡ verdict_in checked };

    fn from(checked: Result<(), Fault>) -> Verdict {
        match checked {
            Ok(()) => Verdict {
                answer: TAKEN,
                list: ANCESTORS,
                index: 0,
            },
            Err(fault) => fault.into(),
        }
    }
}

impl From<Result<usize, Fault>> for Counted {
    ghost from_gives = { λ wrote counted. counted ≡ counted_in wrote };

    fn from(wrote: Result<usize, Fault>) -> Counted {
        match wrote {
            Ok(count) => Counted {
                verdict: Ok(()).into(),
                count: count,
            },
            Err(fault) => Counted {
                verdict: fault.into(),
                count: 0,
            },
        }
    }
}
