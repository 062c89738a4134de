// Tickets, the full listing of two lists, and how a leader's pairs lie to a ticket's place.
#![tactic(auto)]

pub mod leader;
pub mod ticket;
