// Passing over one field at a place, which is field k of its layout.
ghost use Rattle.std.specs.Prelude.{◌≡◌};
ghost use Rattle.wire.specs.declared.Item.TheVariants as items;
ghost use Rattle.message_layout.specs.declared.Kind.TheVariants as kinds;
ghost use Rattle.payload_read.specs.Stops.{judged, stop_item, stop_kind};

use crate::{Passed, Shape, Stop};
use wire::fields::{bytes_field, number_field, string_field, xid_field};
use wire::{Limits, Outcome, Width};

// Behind a field that is accepted, or at one that is refused.
fn judged(k: u64, shape: Shape, start: usize, o: Outcome) -> Passed
    ensures { result ≡ judged k shape start o }
{
    o.map_err(|_| Stop {
        field: k,
        shape,
        start,
        within: None,
    })
}

// n bytes of any value.
#[tactic(auto, unfolding(crate::specs::Stops::stop_item, wire::specs::Reading::read_item))]
pub fn pass_bytes(s: &[u8], at: usize, k: u64, n: usize) -> Passed
    ensures { result ≡ stop_item k (items.Raw n) s.now at }
{
    judged(k, Shape::Bytes { size: n }, at, bytes_field(s, Ok(at), n))
}

// A number within limits. In line, since its width and its limits are constants where it is called.
#[tactic(auto, unfolding(crate::specs::Stops::stop_item, wire::specs::Reading::read_item))]
#[inline(always)]
pub fn pass_number(s: &[u8], at: usize, k: u64, width: Width, limits: Limits) -> Passed
    ensures { result ≡ stop_item k (items.Num width limits) s.now at }
{
    judged(
        k,
        Shape::Number { width },
        at,
        number_field(s, Ok(at), width, limits),
    )
}

// A string.
#[tactic(auto, unfolding(crate::specs::Stops::stop_item, wire::specs::Reading::read_item))]
pub fn pass_string(s: &[u8], at: usize, k: u64) -> Passed
    ensures { result ≡ stop_item k items.Str s.now at }
{
    judged(k, Shape::Str, at, string_field(s, Ok(at)))
}

// An xid.
#[tactic(auto, unfolding(crate::specs::Stops::stop_kind))]
pub fn pass_xid(s: &[u8], at: usize, k: u64) -> Passed
    ensures { result ≡ stop_kind k kinds.Xid s.now at }
{
    judged(k, Shape::Xid, at, xid_field(s, Ok(at)))
}
