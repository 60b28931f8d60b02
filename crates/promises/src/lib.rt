// Every public function's promise leaves one answer, and one content of what was lent; `judging::tell` promises nothing of what it
// writes, a page answers whether its text could go out, and `streams` says how much is read at most.
// What that means in specs/, the list with its proofs in proofs/; there is no code.
#![tactic(auto)]
