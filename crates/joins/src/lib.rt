// Copies the lists under two tags of a checked book into lent words once, so that any number of
// pages can be made of those words.
#![tactic(auto)]

pub mod copy;
