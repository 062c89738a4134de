// No code: the checks, the listing and the links over any rule of what is inside, and what stays
// the same from the stricter rule to this library's.
#![tactic(auto)]
