// Passing over the payload of each message type: its fields one after the other, up to the first that is refused. Reading from where that
// stops; reading a list, a part that follows a flag, a field of any kind.
// Specifications: specs/Stops (where passing over fields stops, and over the payload of each type), specs/Outcomes (what reading comes to from
// there), specs/Inner (for a private function). They cite the definitions of wire (specs/Reading) and the table of message_layout.
// Theorems: proofs/Outcomes (what reading comes to from where passing stops is what the fields' reading comes to).
#![tactic(auto)]

use message_layout::Element;
use wire::Width;

mod elements;
pub mod lists;
mod optional;
mod passes;
pub mod payloads;
pub mod stops;

// What a field is, without its limits: some bytes, a number, a string, an xid. The count of a list and a flag are numbers.
#[derive(Clone, Copy, PartialEq, Eq, Debug)]
pub enum Shape {
    Bytes { size: usize },
    Number { width: Width },
    Str,
    Xid,
}

// Where in a list a field is: the list has `count` elements, and `left` of them are left, the field's own included (`count` is 0 in the part that
// follows a flag).
#[derive(Clone, Copy, PartialEq, Eq, Debug)]
pub struct InList {
    pub element: Element,
    pub count: u64,
    pub left: u64,
}

// A field that is refused: it is field `field` of its layout, and starts at `start`; its layout is an element's where it is in a list.
#[derive(Clone, Copy, PartialEq, Eq, Debug)]
pub struct Stop {
    pub field: u64,
    pub shape: Shape,
    pub start: usize,
    pub within: Option<InList>,
}

// What passing over fields comes to: the place behind the last of them, or the first that is refused.
pub type Passed = Result<usize, Stop>;
