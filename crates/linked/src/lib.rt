// The check of links that a caller lends, and a page of a listing that uses them.
#![tactic(auto)]

pub mod check;
pub mod page;
mod told;
