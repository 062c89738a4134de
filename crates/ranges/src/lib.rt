// The low and the high of a zone's lab readings.
#![tactic(auto)]

pub mod range;
