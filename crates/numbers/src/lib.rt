// The 32-bit little-endian numbers that a field book is made of, and the nodes that lie in its
// bytes.
#![tactic(auto)]

pub mod little;
pub mod part;
