// The single fields of a message: bytes and strings as parts of the caller's bytes, numbers as values.
// Each call reads the whole message first, so a refused message has no fields.
// Specifications: specs/Contents (what each call answers of a value), Fields (how a field is found). Roles are those of message_layout::role.
// Theorems: proofs/Parts (a part's bytes, number and place, as C has them).
#![tactic(auto)]

ghost use Rattle.std.specs.Prelude.{◌≡◌};
ghost use Rattle.message_read.specs.Reading.{reading};
ghost use Rattle.message_fields.specs.Contents.{lent, content_part, content_number, content_xid};
ghost use Rattle.message_fields.specs.Fields.{content_at, seen, sought_in, correlation_answer, part_answer, number_answer, xid_answer};

use crate::seek::find;
use message_layout::limits::{CORRELATION_AT, SIZE_AT};
use message_layout::{Element, Source, role};
use message_read::{payload_of, read};
use wire::values::{XidNumber, part_at, xid_data};
use wire::{Fault, Refused};

pub mod seek;

// What is found under a role: bytes, by their place and how many; a number; an xid or a list, by its place.
#[derive(Clone, Copy, PartialEq, Eq, Debug)]
pub enum Found {
    Bytes { place: usize, size: usize },
    Number { number: u64 },
    Xid { place: usize },
    List { element: Element, place: usize },
}

// The bytes of a message or of an element, and what was found in them under a role.
#[derive(Clone, Copy)]
pub struct Held<'a> {
    pub bytes: &'a [u8],
    pub found: Option<Found>,
}

// A number, or why there is none. Of a message that is accepted: NoField where it, or the element, has no number of
// that role; NoElement, which `count` and `element_number` of message_lists give, where it has no such list or the list no such element.
pub type Value = Result<u64, Refused>;

// The bytes of a field: an id, a string's data, or an xid's data; or why there are none, by the same numbers.
pub type Part<'a> = Result<&'a [u8], Refused>;

// That a message or an element has no such field.
const NO_FIELD: Refused = Refused {
    fault: Fault::NoField,
    place: 0,
};

// The correlation id.
pub fn correlation<'a>(message: &'a [u8], version: u64) -> Part<'a>
    ensures { lent result ≡ correlation_answer (reading version message.now) message.now }
{
    read(message, version)?;
    Ok(&message[CORRELATION_AT..SIZE_AT])
}

// The bytes of a field.
pub fn part<'a>(message: &'a [u8], version: u64, role: u64) -> Part<'a>
    ensures { lent result ≡ part_answer (reading version message.now) role message.now }
{
    under(message, version, role)?.part()
}

// The number of a field.
pub fn number(message: &[u8], version: u64, role: u64) -> Value
    ensures { result ≡ number_answer (reading version message.now) role message.now }
{
    under(message, version, role)?.number()
}

// A number of the message's xid.
pub fn xid_number(message: &[u8], version: u64, which: XidNumber) -> Value
    ensures { result ≡ xid_answer (reading version message.now) which message.now }
{
    under(message, version, role::XID)?.xid(which)
}

// What a message holds under a role.
pub fn under<'a>(message: &'a [u8], version: u64, role: u64) -> Result<Held<'a>, Refused>
    ensures { seen result ≡ sought_in (reading version message.now) role message.now }
{
    let accepted = read(message, version)?;
    let bytes = payload_of(message, Ok(accepted));
    let source = Source::Message {
        kind: accepted.kind,
    };
    let found = find(bytes, source, role);
    Ok(Held { bytes, found })
}

impl<'a> Held<'a> {
    // Its bytes.
    pub fn part(self) -> Part<'a>
        ensures { lent result ≡ content_part (content_at self.entry.found self.entry.bytes.now) }
    {
        match self.found {
            Some(Found::Bytes { place, size }) => Ok(part_at(self.bytes, place, size)),
            Some(Found::Xid { place }) => Ok(xid_data(self.bytes, place)),
            _ => Err(NO_FIELD),
        }
    }

    // Its number.
    pub fn number(self) -> Value
        ensures { result ≡ content_number (content_at self.entry.found self.entry.bytes.now) }
    {
        match self.found {
            Some(Found::Number { number }) => Ok(number),
            _ => Err(NO_FIELD),
        }
    }

    // A number of it, where it is an xid.
    pub fn xid(self, which: XidNumber) -> Value
        ensures { result ≡ content_xid which (content_at self.entry.found self.entry.bytes.now) }
    {
        match self.found {
            Some(Found::Xid { place }) => Ok(wire::values::xid_number(self.bytes, place, which)),
            _ => Err(NO_FIELD),
        }
    }
}
