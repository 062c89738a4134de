// The links of a list's containment forest: each node's parent, first child and next sibling.
#![tactic(auto)]

mod climb;
pub mod forest;
pub mod link;
