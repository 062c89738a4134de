// The scope's proved figures. There is no code here: the table is in specs/Figures.antt, and its
// theorem in proofs/Table.antt.
#![tactic(auto)]
