// The part of a list that starts at its faulty node, for a person who repairs lists.
#![tactic(auto)]

pub mod part;
