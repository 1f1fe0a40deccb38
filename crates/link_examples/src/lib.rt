// Demand 3 on worked lists: proofs/Histories computes some by hand from document 01, proofs/Pair is a pair of lists that differ where they may. No code.
#![tactic(auto)]
