// Wrong readers, each caught at an input by computing the rules. There is no code here: specs/ has the readers and the table, proofs/ the theorems.
#![tactic(auto)]
