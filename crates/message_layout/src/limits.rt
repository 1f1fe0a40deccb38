// Document 01's numbers of a whole message. The code of the message crates has each here only; contracts cite specs/Message and specs/Table, and
// write the 16 of an id as a number.

use wire::Limits;

// The length of a header, and where the correlation and the size stand in it.
pub const HEADER: usize = 32;

pub const CORRELATION_AT: usize = 8;

pub const SIZE_AT: usize = 24;

// The bytes of an id: a correlation, an execution, a domain or a message.
pub const ID: usize = 16;

// The most that a payload may have: 65,536 bytes with its header.
pub const SIZE_MOST: usize = 65504;

// The versions that can be agreed, and that a 7201 can choose: from the first to the last.
pub const FIRST_VERSION: u64 = 1000;

pub const LAST_VERSION: u64 = 1004;

// What is allowed of a chosen version: 0, or one that can be agreed.
pub const CHOSEN_VERSION: Limits = Limits {
    most: 0,
    from: FIRST_VERSION,
    to: LAST_VERSION,
};
