// Passing over an element of a list, in line with the loop over the list.
ghost use Rattle.std.specs.Prelude.{◌≡◌, Ok};
ghost use Rattle.message_layout.specs.Table.{items_of};
ghost use Rattle.message_layout.specs.declared.Element.TheVariants.{Service, Queue, Message};
ghost use Rattle.payload_read.specs.Stops.{stop_items};

use crate::Passed;
use crate::passes::{pass_bytes, pass_number, pass_string};
use message_layout::Element;
use message_layout::limits::ID;
use wire::{Limits, Width};

// One element.
#[tactic(auto, unfolding(message_layout::specs::Table::items_of, crate::specs::Stops::stop_items))]
#[inline(always)]
pub fn element(s: &[u8], at: usize, kind: Element) -> Passed
    ensures { result ≡ stop_items 0 (items_of kind) s.now (Ok at) }
{
    match kind {
        Element::Version => pass_number(s, at, 0, Width::U64, Limits::ANY),
        Element::ServiceName | Element::QueueName => pass_string(s, at, 0),
        Element::Domain => pass_string(s, pass_bytes(s, at, 0, ID)?, 1),
        Element::Service => service(s, at),
        Element::Queue => queue(s, at),
        Element::Message => message(s, at),
    }
}

// Name, category, transaction mode, timeout and hops.
#[tactic(auto, unfolding(message_layout::specs::Table::items_of, crate::specs::Stops::stop_items))]
#[inline(always)]
fn service(s: &[u8], at: usize) -> Passed
    ensures { result ≡ stop_items 0 (items_of Service) s.now (Ok at) }
{
    let at = pass_string(s, at, 0)?;
    let at = pass_string(s, at, 1)?;
    let at = pass_number(s, at, 2, Width::U16, Limits::at_most(3))?;
    let at = pass_number(s, at, 3, Width::U64, Limits::ANY)?;
    pass_number(s, at, 4, Width::U64, Limits::ANY)
}

// Name, retry count and delay, and whether enqueuing and dequeuing are enabled.
#[tactic(auto, unfolding(message_layout::specs::Table::items_of, crate::specs::Stops::stop_items))]
#[inline(always)]
fn queue(s: &[u8], at: usize) -> Passed
    ensures { result ≡ stop_items 0 (items_of Queue) s.now (Ok at) }
{
    let at = pass_string(s, at, 0)?;
    let at = pass_number(s, at, 1, Width::U64, Limits::ANY)?;
    let at = pass_number(s, at, 2, Width::U64, Limits::ANY)?;
    let at = pass_number(s, at, 3, Width::U8, Limits::at_most(1))?;
    pass_number(s, at, 4, Width::U8, Limits::at_most(1))
}

// Id, properties, reply queue, when it is available, the data's type, the data, how often it was redelivered and its timestamp.
#[tactic(auto, unfolding(message_layout::specs::Table::items_of, crate::specs::Stops::stop_items))]
#[inline(always)]
fn message(s: &[u8], at: usize) -> Passed
    ensures { result ≡ stop_items 0 (items_of Message) s.now (Ok at) }
{
    let at = pass_bytes(s, at, 0, ID)?;
    let at = pass_string(s, at, 1)?;
    let at = pass_string(s, at, 2)?;
    let at = pass_number(s, at, 3, Width::U64, Limits::ANY)?;
    let at = pass_string(s, at, 4)?;
    let at = pass_string(s, at, 5)?;
    let at = pass_number(s, at, 6, Width::U64, Limits::ANY)?;
    pass_number(s, at, 7, Width::U64, Limits::ANY)
}
