// The three demands, what crosses to C, the fourteen cases, why a message is refused, and the limits of an xid's halves: statements
// (specs/Claims), each with its proof (proofs/Proved). No code.
#![tactic(auto)]
