// The theory of pages, for items of any kind with a key. There is no code here: specs/ says what a
// page is, and proofs/ says what follows.
#![tactic(auto)]
