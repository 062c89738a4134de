// No code: the trees of Li and Moon, numbered by order and size, and what this library says of a
// list that is numbered so.
#![tactic(auto)]
