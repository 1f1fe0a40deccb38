// The places of parts, for a caller that cannot be lent a part of its own bytes: the offset of a part from the message's first byte,
// and its length. Each call reads the whole message first.
// Specifications: specs/Places. Theorems: proofs/There (the bytes at a place are the part that message_fields and message_lists hand back),
// proofs/Placed (an answer's number, offset, length and place, as C has them).
#![tactic(auto)]

ghost use Rattle.std.specs.Prelude.{◌≡◌};
ghost use Rattle.message_read.specs.Reading.{reading};
ghost use Rattle.message_places.specs.Places.{correlation_placed, part_placed, element_placed};

use crate::places::place_in;
use message_fields::under;
use message_layout::limits::{CORRELATION_AT, HEADER, ID};
use message_lists::elements::element_under;
use message_read::read;
use wire::Refused;

mod places;

// The offset of a part from the message's first byte, and its length.
#[derive(Clone, Copy, PartialEq, Eq, Debug)]
pub struct Place {
    pub at: usize,
    pub size: usize,
}

// The place of a part, or why there is none.
pub type Placed = Result<Place, Refused>;

// The correlation id.
pub fn correlation_place(message: &[u8], version: u64) -> Placed
    ensures { result ≡ correlation_placed (reading version message.now) }
{
    read(message, version)?;
    Ok(Place {
        at: CORRELATION_AT,
        size: ID,
    })
}

// The bytes of a field: NoField where the message has no bytes of that role.
pub fn part_place(message: &[u8], version: u64, role: u64) -> Placed
    ensures { result ≡ part_placed (reading version message.now) role message.now }
{
    place_in(under(message, version, role)?, HEADER)
}

// The bytes of a field of element n of a list: NoElement where there is no such element, NoField where it has no bytes of that role.
pub fn element_place(message: &[u8], version: u64, list: u64, n: u64, role: u64) -> Placed
    ensures { result ≡ element_placed (reading version message.now) list n role message.now }
{
    let held = under(message, version, list)?;
    let element = element_under(held, n, role)?;
    let base = HEADER + (held.bytes.len() - element.bytes.len());
    place_in(element, base)
}
