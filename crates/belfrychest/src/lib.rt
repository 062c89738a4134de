// The C interface as a library: each function under the name that C calls it by. Each returns what
// the function below it returns, in a struct that C has too. The crate belfrychest_c exports them.
#![tactic(auto)]

pub mod ask;
pub mod book;
pub mod lent;
pub mod list;
pub mod name;
pub mod page;
pub mod range;
pub mod sheet;
pub mod table;
pub mod version;
