// The message calls of include/sootlark.h, as C calls them: slices are a pointer and a length, results are written through pointers, and the
// number that is returned is document 01's. Every result is written in every case. No call asks anything of its caller.
// Specifications: those of the crates below, and specs/Answers (which number of an xid is asked for).
#![tactic(auto)]

mod answers;
pub mod explaining;
pub mod reading;
pub mod writing;
