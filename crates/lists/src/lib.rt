// The checks of one list of nodes, in words or in bytes, and of two lists that are to be joined.
#![tactic(auto)]

mod both;
pub mod bytes;
pub mod list;
mod stack;
pub mod two;
mod walk;
