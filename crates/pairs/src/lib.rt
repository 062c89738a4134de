// A page of the full listing of two lists, in either order.
#![tactic(auto)]

mod ancestors;
mod descendants;
mod groups;
mod jump;
pub mod jumping;
mod open;
pub mod page;
