// Whole lists of put and close calls. There is no code here: specs/ states what holds of every list, proofs/ proves it.
#![tactic(auto)]
