// The marks of a document numbered into the rows of a table, a table turned back into marks, and
// the list of one tag picked out of a table.
#![tactic(auto)]

mod back;
pub mod mark;
pub mod number;
pub mod pick;
pub mod row;
pub mod unnumber;
