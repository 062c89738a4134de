// What a node is, and which node contains which.
#![tactic(auto)]

pub mod node;
