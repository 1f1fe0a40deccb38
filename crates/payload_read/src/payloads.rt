// Passing over the payload of each type: its fields, one after the other.
ghost use Rattle.std.specs.Prelude.{◌≡◌, [], ◌∷◌, Ok};
ghost use Rattle.message_layout.specs.Table.{entries_of, execution, domain_id, domain_name, xid_field, resource};
ghost use Rattle.payload_read.specs.Stops.{stop_fields, stop_of};

use crate::Passed;
use crate::lists::pass_list;
use crate::passes::{pass_bytes, pass_number, pass_string, pass_xid};
use message_layout::Element;
use message_layout::limits::{CHOSEN_VERSION, ID};
use wire::{Limits, Width};

// The payload of a type.
#[tactic(auto, unfolding(message_layout::specs::Table::entries_of, crate::specs::Stops::stop_of, crate::specs::Stops::stop_fields, crate::specs::Stops::stop_kind))]
pub fn payload_stop(s: &[u8], kind: u64) -> Passed
    ensures { result ≡ stop_of kind s.now }
{
    match kind {
        7200 => pass_list(s, domain(s), 3, Element::Version),
        7201 => pass_number(s, domain(s)?, 3, Width::U64, CHOSEN_VERSION),
        7202 | 7203 => execution(s),
        7300 => pass_list(
            s,
            pass_list(s, domain(s), 3, Element::ServiceName),
            4,
            Element::QueueName,
        ),
        7302 => pass_list(s, execution(s), 1, Element::Domain),
        7311 => pass_list(
            s,
            pass_list(s, domain(s), 3, Element::Service),
            4,
            Element::Queue,
        ),
        3103 => service_reply(s),
        5205 => pass_number(s, transaction(s)?, 3, Width::U64, Limits::ANY),
        5206 => pass_number(s, transaction(s)?, 3, Width::U32, Limits::ANY),
        6201 => pass_list(s, execution(s), 1, Element::Message),
        _ => Ok(0),
    }
}

// The execution id, first in every payload.
#[tactic(auto, unfolding(crate::specs::Stops::stop_fields, crate::specs::Stops::stop_kind))]
fn execution(s: &[u8]) -> Passed
    ensures { result ≡ stop_fields 0 (execution ∷ []) s.now (Ok 0) }
{
    pass_bytes(s, 0, 0, ID)
}

// The execution id, a domain's id and its name.
#[tactic(auto, unfolding(crate::specs::Stops::stop_fields, crate::specs::Stops::stop_kind))]
fn domain(s: &[u8]) -> Passed
    ensures { result ≡ stop_fields 0 (execution ∷ domain_id ∷ domain_name ∷ []) s.now (Ok 0) }
{
    let at = execution(s)?;
    let at = pass_bytes(s, at, 1, ID)?;
    pass_string(s, at, 2)
}

// The execution id, an xid and a resource.
#[tactic(auto, unfolding(crate::specs::Stops::stop_fields, crate::specs::Stops::stop_kind))]
fn transaction(s: &[u8]) -> Passed
    ensures { result ≡ stop_fields 0 (execution ∷ xid_field ∷ resource ∷ []) s.now (Ok 0) }
{
    let at = execution(s)?;
    let at = pass_xid(s, at, 1)?;
    pass_number(s, at, 2, Width::U32, Limits::ANY)
}

// 3103: the execution id, result, user code, transaction state, and the buffer's type and data.
#[tactic(auto, unfolding(message_layout::specs::Table::entries_of, crate::specs::Stops::stop_fields, crate::specs::Stops::stop_kind))]
fn service_reply(s: &[u8]) -> Passed
    ensures { result ≡ stop_fields 0 (entries_of 3103) s.now (Ok 0) }
{
    let at = execution(s)?;
    let at = pass_number(s, at, 1, Width::U32, Limits::ANY)?;
    let at = pass_number(s, at, 2, Width::U64, Limits::ANY)?;
    let at = pass_number(s, at, 3, Width::U8, Limits::at_most(3))?;
    let at = pass_string(s, at, 4)?;
    pass_string(s, at, 5)
}
