// The round trip of writing and reading, from the contracts of message_write and message_read alone.
// Theorems: proofs/RoundTrip for every request, and proofs/Every for each writer's own arguments
// (stated in specs/Every). Both suppose what the types of the arguments say. types proves that of every
// argument, and writers promises the round trip of each writer with nothing left to suppose.
#![tactic(auto)]

pub mod types;
pub mod writers;
