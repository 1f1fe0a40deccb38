// Demand 3: definitions and theorem, in specs/ and proofs/. No code.
#![tactic(auto)]
