// Makes the lines of the printing program in a buffer.
#![tactic(auto)]

pub mod line;
mod text;
