// The field book: its check, and its lists by tag and by position, as parts of the caller's bytes.
#![tactic(auto)]

pub mod book;
pub mod find;
