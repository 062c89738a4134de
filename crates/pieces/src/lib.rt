// There is no code here. specs/ and proofs/ say what the calls on the pieces of a long list tell of
// the whole list, and why.
#![tactic(auto)]
