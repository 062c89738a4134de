// What a call answers: why it refuses, at which node of which list, and the structs that C gets.
#![tactic(auto)]

pub mod answer;
pub mod refusal;
pub mod verdict;
