// Answers as they are printed.
use answers::answer::name_of;
use answers::verdict::Verdict;
use std::fmt::{Display, Formatter};
use std::{fmt, str};

// The number of an answer, and its name.
#[derive(Clone, Copy)]
pub(crate) struct Named(pub(crate) u32);

impl Display for Named {
    fn fmt<W: fmt::Write>(&self, f: &mut Formatter<W>) -> fmt::Result {
        let number = self.0;
        let name = name_of(number);
        let letters = str::from_utf8(&name).unwrap_or("").trim_end();
        write!(f, "{number} {letters}")
    }
}

// A verdict: its answer, the list that it speaks of and the index there.
#[derive(Clone, Copy)]
pub(crate) struct Printed(pub(crate) Verdict);

impl Display for Printed {
    fn fmt<W: fmt::Write>(&self, f: &mut Formatter<W>) -> fmt::Result {
        let Verdict {
            answer,
            list,
            index,
        } = self.0;
        write!(f, "{} list {list} index {index}", Named(answer))
    }
}
