// How values are lent to a writer, and the tests of 48 and 45 on what is lent.
// Specifications: specs/Lent (the lent forms, the values that they stand for, 48 and 45), Lists (the
// lists of the messages as they are lent), Requests (the eleven requests, by name), Lending (what the
// types of lent arguments say, and how the values of a message are lent).
#![tactic(auto)]

pub mod columns;
pub mod requests;
pub mod strings;
pub mod tests;
pub mod xid;
