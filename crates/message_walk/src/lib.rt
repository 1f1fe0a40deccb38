// The fields on the wire of a payload, walked one after the other over a plain position, up to the first fault.
// Specifications: specs/Walk (the fields in order), specs/Reasons (the first fault), specs/Standing (where a field stands by the table),
// specs/Positions (a step from a position).
// Theorems: proofs/Ends (the walk is the reading's), proofs/Placed (every field of it stands where the table says), proofs/Stepping (a step
// goes to the next field of the walk).
#![tactic(auto)]

use message_layout::{Element, Source};
use wire::{Fault, Limits, Width};

pub mod pieces;
pub mod steps;

// What stands at a place of the wire: some bytes, or a number within limits.
#[derive(Clone, Copy, PartialEq, Eq, Debug)]
pub enum Form {
    Bytes { size: usize },
    Number { width: Width, limits: Limits },
}

// A field on the wire: piece `piece` of field `field` of a layout, as crate message_names counts them; in a list, the number of the
// element that it is in, from 0; where it is, and what it is.
#[derive(Clone, Copy, PartialEq, Eq, Debug)]
pub struct Piece {
    pub source: Source,
    pub field: u64,
    pub piece: u64,
    pub index: Option<u64>,
    pub place: usize,
    pub form: Form,
}

// The field that a reason names: one of the header's names, or a field of the payload.
#[derive(Clone, Copy, PartialEq, Eq, Debug)]
pub enum FieldName {
    Header,
    Payload,
    HeaderType,
    HeaderSize,
    Piece {
        source: Source,
        field: u64,
        piece: u64,
    },
}

// What a reason tells beside the field: the bytes needed and the bytes there; the value found; the bytes left over.
#[derive(Clone, Copy, PartialEq, Eq, Debug)]
pub enum Detail {
    Room { needed: usize, had: usize },
    Value { value: u64 },
    Left { left: usize },
}

// Why a message is refused: the fault, the field if one is named, its element's number if it is in a list, and what is wrong.
#[derive(Clone, Copy, PartialEq, Eq, Debug)]
pub struct Reason {
    pub fault: Fault,
    pub field: Option<FieldName>,
    pub index: Option<u64>,
    pub detail: Detail,
}

// A position in the walk along the payload of a message of type `kind`: the field of the layout that it is in, the piece of that, and
// its place. `told` is what the pieces of the field before it told: a string's size, an xid's gtrid_length or the sum of its lengths.
// A gtrid_length above its limit, which no walk tells, counts as the limit.
// Among the fields of the message itself it is within nothing. Within an element of a list, or the part that follows a flag, `left`
// elements are left with this one of `count` (0 in the part that follows a flag, which has no number), and field `after` of the message
// comes behind them.
#[derive(Clone, Copy, PartialEq, Eq, Debug)]
pub struct Position {
    pub kind: u64,
    pub within: Option<Element>,
    pub field: u64,
    pub piece: u64,
    pub told: u64,
    pub place: usize,
    pub count: u64,
    pub left: u64,
    pub after: u64,
}

// A field that the walk comes to, and the position behind it.
#[derive(Clone, Copy, PartialEq, Eq, Debug)]
pub struct Met {
    pub piece: Piece,
    pub next: Position,
}

// What stands at a position: a field that is not at fault; nothing behind the last one; or why the payload is refused.
pub type Step = Result<Option<Met>, Reason>;
