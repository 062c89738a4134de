// The customer's three demands, in his words, and what else is promised. There is no code here:
// each file of proofs/ states its clauses one by one and proves them by citing the layers.
#![tactic(auto)]
