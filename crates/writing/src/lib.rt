// Writes a field book from its lists.
#![tactic(auto)]

mod check;
mod put;
pub mod wanted;
pub mod write;
