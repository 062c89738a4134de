// Several questions to one book in one call, whose pages share one output.
#![tactic(auto)]

pub mod ask;
mod question;
