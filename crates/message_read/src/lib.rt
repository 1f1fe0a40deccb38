// Reading a whole message at an agreed version.
// Specifications: specs/Reading (the order of the tests), specs/Passing (where passing over a message stops). Theorems: proofs/Exact (accepted
// exactly when valid, both round trips), proofs/Opening (the tests before the fields: what passes them, and what each refusal says),
// proofs/Passing (how reading follows from where passing stops).
#![tactic(auto)]

ghost use Rattle.std.specs.Prelude.{◌≡◌, ◌+◌, ◌≤◌, length, Ok, Err};
ghost use Rattle.wire.specs.Reading.{refused};
ghost use Rattle.message_layout.specs.Message.{header_size, size_in};
ghost use Rattle.message_read.specs.Passing.{passing};
ghost use Rattle.message_read.specs.Reading.{accepted, reading, opening, size_tested, payload_of};

use message_layout::limits::{HEADER, SIZE_AT, SIZE_MOST};
use message_layout::types::{is_served, versions_of};
use payload_read::Passed;
use payload_read::payloads::payload_stop;
use payload_read::stops::stop_outcome;
use wire::fields::end_field;
use wire::numbers::number_at;
use wire::values::part_at;
use wire::{Fault, Refused, Width};

// A message that is accepted: its type, and how many bytes it has.
#[derive(Clone, Copy, PartialEq, Eq, Debug)]
pub struct Accepted {
    pub kind: u64,
    pub used: usize,
}

// What reading a message comes to.
pub type Reading = Result<Accepted, Refused>;

// A message that passes the tests before its fields: its type, how many bytes it has by its header, and what passing over its fields comes to.
#[derive(Clone, Copy, PartialEq, Eq, Debug)]
pub struct Tested {
    pub kind: u64,
    pub used: usize,
    pub fields: Passed,
}

// What passing over a message comes to.
pub type Passage = Result<Tested, Refused>;

// The message at the front of the bytes, at an agreed version: the tests before its fields, and then the fields.
pub fn read(message: &[u8], version: u64) -> Reading
    ensures { result ≡ reading version message.now }
{
    let tested = pass_message(message, version)?;
    let payload = &message[HEADER..tested.used];
    end_field(payload, stop_outcome(payload, tested.fields))?;
    Ok(Accepted {
        kind: tested.kind,
        used: tested.used,
    })
}

// The tests before the fields, and where passing over the fields stops. Reading and explaining both call it, so it stands by itself in the machine
// code.
pub fn pass_message(message: &[u8], version: u64) -> Passage
    ensures { result ≡ passing version message.now }
{
    let opened = open_message(message, version)?;
    let payload = &message[HEADER..opened.used];
    Ok(Tested {
        kind: opened.kind,
        used: opened.used,
        fields: payload_stop(payload, opened.kind),
    })
}

// The tests before the fields: the version, the header, the type and the size. Accepted are a message's type and how many bytes
// it has by its header; no field was read.
fn open_message(message: &[u8], version: u64) -> Reading
    ensures { result ≡ opening version message.now }
{
    if !is_served(version) {
        return refused(Fault::NoSuchVersion);
    }
    if message.len() < HEADER {
        return refused(Fault::NotWhole);
    }
    let kind = number_at(message, 0, Width::U64);
    let Some(versions) = versions_of(kind) else {
        return refused(Fault::UnknownType);
    };
    if !versions.holds(version) {
        return refused(Fault::NotInVersion);
    }
    open_sized(message, kind)
}

// A refusal without a place.
fn refused(fault: Fault) -> Reading
    ensures { result ≡ Err (refused fault 0) }
{
    Err(Refused { fault, place: 0 })
}

// The tests of the size of a message of that type.
fn open_sized(message: &[u8], kind: u64) -> Reading
    requires { header_size ≤ length message.now }
    ensures { result ≡ size_tested message.now (Ok (accepted kind (header_size + size_in message.now))) }
{
    let size = number_at(message, SIZE_AT, Width::U64);
    if (SIZE_MOST as u64) < size {
        return refused(Fault::TooLarge);
    }
    let n = size as usize;
    if message.len() - HEADER < n {
        return refused(Fault::NotWhole);
    }
    Ok(Accepted {
        kind,
        used: HEADER + n,
    })
}

// The payload of a message that was read with that answer; none where it is refused. Total: of any other answer, the bytes
// behind the header, as far as that answer says and there are any.
pub fn payload_of<'a>(message: &'a [u8], answer: Reading) -> &'a [u8]
    ensures { result.now ≡ payload_of answer message.now }
{
    match answer {
        Ok(accepted) => part_at(message, HEADER, accepted.used.saturating_sub(HEADER)),
        Err(_) => &[],
    }
}
