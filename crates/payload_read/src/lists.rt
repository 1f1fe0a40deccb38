// Passing over lists; reading lists, parts that follow a flag, and fields of any kind.
ghost use Rattle.std.specs.Prelude.{◌≡◌, ◌-◌, ◌/◌, length};
ghost use Rattle.wire.specs.Numbers.{Bytes};
ghost use Rattle.wire.specs.Reading.{read_field};
ghost use Rattle.message_layout.specs.Table.{field_of, list, optional};
ghost use Rattle.message_layout.specs.declared.Element.TheVariants.{Version};
ghost use Rattle.payload_read.specs.Stops.{go_on, of_element, stop_elements, stop_kind};

use crate::elements::element;
use crate::optional::items;
use crate::passes::pass_number;
use crate::stops::stop_outcome;
use crate::{InList, Passed, Shape, Stop};
use message_layout::{Element, Kind};
use wire::fields::{item_field, number_field, xid_field};
use wire::numbers::number_at;
use wire::{Limits, Outcome, Width};

// Versions, which are not judged: how many fit is known without reading them.
fn versions(s: &[u8], at: usize, n: u64) -> Passed
    requires { Bytes s.now }
    ensures { result ≡ stop_elements Version n n s.now at }
{
    let fit = s.len().saturating_sub(at) / 8;
    if n <= fit as u64 {
        return Ok(at + n as usize * 8);
    }
    Err(Stop {
        field: 0,
        shape: Shape::Number { width: Width::U64 },
        start: at + fit * 8,
        within: Some(InList {
            element: Element::Version,
            count: n,
            left: n - fit as u64,
        }),
    })
}

// A field of an element that is refused, with `left` elements left of `count`.
fn of_element(stop: Stop, element: Element, count: u64, left: u64) -> Stop
    ensures { result ≡ of_element element count left stop }
{
    Stop {
        within: stop.within.or(Some(InList {
            element,
            count,
            left,
        })),
        ..stop
    }
}

// n elements. Each kind is named in its own call, so that the machine code has a loop for each, with no choice of a kind inside.
fn elements(s: &[u8], at: usize, kind: Element, n: u64) -> Passed
    ensures { result ≡ stop_elements kind n n s.now at }
{
    match kind {
        Element::Version => versions(s, at, n),
        Element::ServiceName => each(s, at, Element::ServiceName, n),
        Element::QueueName => each(s, at, Element::QueueName, n),
        Element::Domain => each(s, at, Element::Domain, n),
        Element::Service => each(s, at, Element::Service, n),
        Element::Queue => each(s, at, Element::Queue, n),
        Element::Message => each(s, at, Element::Message, n),
    }
}

// n elements, one after the other. Every element has a byte or more, so there are no more turns than bytes.
#[inline(always)]
fn each(s: &[u8], at: usize, kind: Element, n: u64) -> Passed
    ensures { result ≡ stop_elements kind n n s.now at }
{
    let mut place = at;
    for i in 0..n {
        place = element(s, place, kind).map_err(|stop| of_element(stop, kind, n, n - i))?;
    }
    Ok(place)
}

// A list at a place: its count, and its elements. It stands by itself in the machine code, with the loops over the elements in it.
#[tactic(auto, unfolding(crate::specs::Stops::stop_kind, crate::specs::Stops::stop_item, wire::specs::Reading::read_item))]
fn counted(s: &[u8], at: usize, k: u64, kind: Element) -> Passed
    ensures { result ≡ stop_kind k (list kind) s.now at }
{
    let end = pass_number(s, at, k, Width::U64, Limits::ANY)?;
    elements(s, end, kind, number_at(s, at, Width::U64))
}

// A list: a count and as many elements.
pub fn pass_list(s: &[u8], a: Passed, k: u64, kind: Element) -> Passed
    ensures { result ≡ go_on a (stop_kind k (list kind) s.now) }
{
    let at = a?;
    counted(s, at, k, kind)
}

// The same, read.
pub fn list_field(s: &[u8], o: Outcome, kind: Element) -> Outcome
    ensures { result ≡ read_field (field_of (list kind)) s.now o }
{
    let at = o?;
    stop_outcome(s, counted(s, at, 0, kind))
}

// A part that follows a flag where that is 1.
#[tactic(auto, unfolding(wire::specs::Reading::read_field, wire::specs::Reading::read_list))]
pub fn optional_field(s: &[u8], o: Outcome, kind: Element) -> Outcome
    ensures { result ≡ read_field (field_of (optional kind)) s.now o }
{
    let at = o?;
    let end = number_field(s, Ok(at), Width::U8, Limits::at_most(1))?;
    if number_at(s, at, Width::U8) == 0 {
        Ok(end)
    } else {
        items(s, Ok(end), kind)
    }
}

// A field of any kind.
#[tactic(auto, unfolding(wire::specs::Reading::read_field))]
pub fn kind_field(s: &[u8], o: Outcome, kind: Kind) -> Outcome
    ensures { result ≡ read_field (field_of kind) s.now o }
{
    match kind {
        Kind::One { item } => item_field(s, o, item),
        Kind::List { element } => list_field(s, o, element),
        Kind::Optional { element } => optional_field(s, o, element),
        Kind::Xid => xid_field(s, o),
    }
}
