// A layout for trying the part that follows a flag, which no message has yet: two bytes; a flag, and where that is 1 a u64; a u8 of at most 3.
// Specifications: specs/Example (the layout), Exact (what holds of it). Theorems: proofs/Exactly, Found, and Examples on bytes.
#![tactic(auto)]

ghost use Rattle.std.specs.Prelude.{◌≡◌};
ghost use Rattle.layout_example.specs.Example.{example_reading};

use message_layout::Element;
use payload_read::lists::optional_field;
use wire::fields::{bytes_field, end_field, number_field};
use wire::{Limits, Outcome, Width};

// Reads the bytes by that layout: how many they are, or the first fault and its place.
#[tactic(auto, unfolding(wire::specs::Reading::read_fields, wire::specs::Reading::read_field, wire::specs::Reading::read_item))]
pub fn read_example(s: &[u8]) -> Outcome
    ensures { result ≡ example_reading s.now }
{
    let start = bytes_field(s, Ok(0), 2);
    let part = optional_field(s, start, Element::Version);
    let state = number_field(s, part, Width::U8, Limits::at_most(3));
    end_field(s, state)
}
