// An opened book: a struct that holds the book's bytes and the number of its lists, with thin
// methods. Each leaves the work to a function on the slice and the number.
#![tactic(auto)]

mod opening;
pub mod reader;
