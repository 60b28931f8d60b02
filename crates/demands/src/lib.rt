// What the whole is for, on one page: demand 3, both halves over one verdict.
// The statement in specs/, the proof in proofs/; there is no code.
#![tactic(auto)]
