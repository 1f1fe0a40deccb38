// The place of a field that was found. Offsets are sums, so each function asks that the bytes' offsets fit a number: the bytes are a part of a message.
ghost use Rattle.std.specs.Prelude.{◌≡◌, ◌+◌, ◌<◌, ◌^◌, length};
ghost use Rattle.message_places.specs.Places.{xid_place, place_in, placed_in};

use crate::{Place, Placed};
use message_fields::seek::within;
use message_fields::{Found, Held};
use wire::Width;
use wire::numbers::number_at;
use wire::values::XID_HEAD;

// The place of a field that was found in bytes whose first one has an offset.
pub fn place_in(held: Held<'_>, base: usize) -> Placed
    requires { base + length held.bytes.now < 2 ^ 64 }
    ensures { result ≡ placed_in base held.entry.found held.entry.bytes.now }
{
    let part = held.part()?;
    Ok(Place {
        at: offset_of(held, base),
        size: part.len(),
    })
}

// The offset of its bytes.
fn offset_of(held: Held<'_>, base: usize) -> usize
    requires { base + length held.bytes.now < 2 ^ 64 }
    ensures { result ≡ place_in base held.entry.found held.entry.bytes.now }
{
    match held.found {
        Some(Found::Bytes { place, size: _ }) => base + within(held.bytes, place, 0),
        Some(Found::Xid { place }) => xid_offset(held.bytes, base, place),
        _ => 0,
    }
}

// The offset of an xid's data.
#[tactic(auto, unfolding(crate::specs::Places::xid_place))]
fn xid_offset(s: &[u8], base: usize, place: usize) -> usize
    requires { base + length s.now < 2 ^ 64 }
    ensures { result ≡ xid_place base s.now place }
{
    if number_at(s, place, Width::U64) == 0 {
        0
    } else {
        base + within(s, place, XID_HEAD)
    }
}
