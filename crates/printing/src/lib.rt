// Prints the pairs of a book's first two lists.
#![tactic(auto)]

mod pages;
pub mod print;
