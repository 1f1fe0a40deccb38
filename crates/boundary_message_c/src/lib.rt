// The message calls of include/sootlark.h, as C calls them: each function is that of the library boundary_message of the same name, with
// the same clauses. A crate is a library or an archive for C, so the archive is a crate of its own.
#![tactic(auto)]

pub mod explaining;
pub mod reading;
pub mod writing;
