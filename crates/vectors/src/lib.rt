// The rules computed on sessions and visits whose answers are known. There is no code here: specs/ has the tables, proofs/ has the theorems.
#![tactic(auto)]
