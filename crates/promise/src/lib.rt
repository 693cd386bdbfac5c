// Theorems over the written rules. There is no code here: specs/ has the statements, proofs/ has the proofs.
#![tactic(auto)]
