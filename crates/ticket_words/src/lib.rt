// A ticket as the six words that a caller of the C interface keeps, and a page that carries them.
#![tactic(auto)]

pub mod page;
pub mod words;
