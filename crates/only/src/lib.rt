// One result only, for each offered function. There is no code here: proofs/Only.antt has the theorems.
#![tactic(auto)]
