// Lab readings of organic matter: decoding, and turning into percent.
#![tactic(auto)]

pub mod reading;
