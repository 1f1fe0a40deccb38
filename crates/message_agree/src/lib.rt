// What the calls on a message hand back are the values of the message that the bytes hold.
// Specifications: specs/Contents. Theorems: proofs/Agree.
#![tactic(auto)]
