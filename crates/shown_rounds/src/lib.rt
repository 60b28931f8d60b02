// The run shown for a failed rule, told by rounds: the same run as by places. The statement is in specs/, its proof in proofs/; there is no code.
#![tactic(auto)]
