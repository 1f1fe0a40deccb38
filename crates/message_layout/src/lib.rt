// The messages: which types there are, at which versions, with which fields.
// Specifications: specs/Roles (our numbers for the role names of document 003), Table (document 01's table, with these names), Rows (the rows
// of the code), Message (a whole message, its validity and its bytes).
#![tactic(auto)]

use wire::Item;

pub mod elements;
pub mod limits;
pub mod role;
pub mod rows;
pub mod types;

// The kinds of list elements.
#[derive(Clone, Copy, PartialEq, Eq, Debug)]
pub enum Element {
    Version,
    ServiceName,
    QueueName,
    Domain,
    Service,
    Queue,
    Message,
}

// The kinds of fields: one item, which is some bytes, a number or a string; a list, which is document 01's L; a part that follows a flag of
// one byte where that is 1; document 01's X.
#[derive(Clone, Copy, PartialEq, Eq, Debug)]
pub enum Kind {
    One { item: Item },
    List { element: Element },
    Optional { element: Element },
    Xid,
}

// A field of a layout.
#[derive(Clone, Copy, PartialEq, Eq, Debug)]
pub struct Field {
    pub role: u64,
    pub kind: Kind,
}

// What a layout is of: a message type, or an element of a list.
#[derive(Clone, Copy, PartialEq, Eq, Debug)]
pub enum Source {
    Message { kind: u64 },
    Element { element: Element },
}

// The versions that a type is in: from the first to the last.
#[derive(Clone, Copy, PartialEq, Eq, Debug)]
pub struct Versions {
    pub first: u64,
    pub last: u64,
}
