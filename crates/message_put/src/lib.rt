// Putting bytes, numbers, strings and lists into a lent output. Every put is total: a byte past the
// end of the output is counted and not written.
// Specifications: specs/Puts (what a put does). How values and lists are lent:
// message_lent's specs/Lent and Lists.
#![tactic(auto)]

pub mod lists;
pub mod puts;
