// The table of contents of a field book: its entries, and the rules that they keep.
#![tactic(auto)]

pub mod check;
pub mod entry;
pub mod step;
