// Demand 3, second half: the run shown for a failed rule ends out of step. The statement is in specs/, its proof in proofs/; there is no code.
#![tactic(auto)]
