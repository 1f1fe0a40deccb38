// The field kinds of a payload. Each takes what the fields before it came to, and passes a refusal on.
ghost use Rattle.std.specs.Prelude.{◌≡◌, Err};
ghost use Rattle.wire.specs.Reading.{refused, room, read_bytes, read_number, read_string, read_item, read_halves, read_xid, read_end};

use crate::numbers::number_at;
use crate::{Fault, Item, Limits, Outcome, Refused, Width, bytes_in};

// The most that an xid's gtrid_length may be, and the most that its bqual_length may be.
pub const GTRID_MOST: u64 = 64;

pub const BQUAL_MOST: u64 = 64;

const GTRID: Limits = Limits {
    most: GTRID_MOST,
    ..Limits::ANY
};

const BQUAL: Limits = Limits {
    most: BQUAL_MOST,
    ..Limits::ANY
};

// n bytes at a place lie in the payload, or RunsPast at the place given.
fn room_for(s: &[u8], at: usize, n: usize, place: usize) -> Outcome
    ensures { result ≡ room n s.now at place }
{
    if at <= s.len() && n <= s.len() - at {
        Ok(at + n)
    } else {
        refused(Fault::RunsPast, place)
    }
}

// A refusal with a place.
fn refused(fault: Fault, place: usize) -> Outcome
    ensures { result ≡ Err (refused fault place) }
{
    Err(Refused { fault, place })
}

// n bytes of any value.
pub fn bytes_field(s: &[u8], o: Outcome, n: usize) -> Outcome
    ensures { result ≡ read_bytes n s.now o }
{
    let at = o?;
    room_for(s, at, n, at)
}

// A number within limits.
pub fn number_field(s: &[u8], o: Outcome, width: Width, limits: Limits) -> Outcome
    ensures { result ≡ read_number width limits s.now o }
{
    let at = o?;
    let end = room_for(s, at, bytes_in(width), at)?;
    if limits.allows(number_at(s, at, width)) {
        Ok(end)
    } else {
        refused(Fault::NotAllowed, at)
    }
}

// A size and as many bytes. Bytes that run past are reported at the size.
pub fn string_field(s: &[u8], o: Outcome) -> Outcome
    ensures { result ≡ read_string s.now o }
{
    let at = o?;
    let data = room_for(s, at, 8, at)?;
    let n = number_at(s, at, Width::U64);
    room_for(s, data, n as usize, at)
}

// An item of any kind.
pub fn item_field(s: &[u8], o: Outcome, item: Item) -> Outcome
    ensures { result ≡ read_item item s.now o }
{
    match item {
        Item::Raw { size } => bytes_field(s, o, size),
        Item::Num { width, limits } => number_field(s, o, width, limits),
        Item::Str => string_field(s, o),
    }
}

// The two lengths and the data of an xid whose formatID is not 0. The first length is bounded before
// the second is looked at, and both before they are added.
fn halves_field(s: &[u8], at: usize) -> Outcome
    ensures { result ≡ read_halves s.now at }
{
    let second = number_field(s, Ok(at), Width::U64, GTRID)?;
    let data = number_field(s, Ok(second), Width::U64, BQUAL)?;
    let g = number_at(s, at, Width::U64);
    let b = number_at(s, second, Width::U64);
    bytes_field(s, Ok(data), (g + b) as usize)
}

// An xid: a formatID, and where that is not 0 two lengths and the data.
pub fn xid_field(s: &[u8], o: Outcome) -> Outcome
    ensures { result ≡ read_xid s.now o }
{
    let at = o?;
    let end = room_for(s, at, 8, at)?;
    if number_at(s, at, Width::U64) == 0 {
        Ok(end)
    } else {
        halves_field(s, end)
    }
}

// No byte after the last field.
pub fn end_field(s: &[u8], o: Outcome) -> Outcome
    ensures { result ≡ read_end s.now o }
{
    let end = o?;
    if end == s.len() {
        Ok(end)
    } else {
        refused(Fault::BytesAfter, end)
    }
}
