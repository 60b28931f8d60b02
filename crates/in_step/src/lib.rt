// Demand 3, first half: an accepted plan stays in step. The statement is in specs/, its proof in proofs/; there is no code.
#![tactic(auto)]
