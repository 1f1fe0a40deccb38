// The version chosen for a 7200: the greatest offered one among 1000 to 1004, or 0.
// Specifications: specs/Choice.
#![tactic(auto)]

ghost use Rattle.std.specs.Prelude.{◌≡◌, ◌+◌, max};
ghost use Rattle.wire.specs.Numbers.{number_at};
ghost use Rattle.message_read.specs.Reading.{reading};
ghost use Rattle.message_choice.specs.Choice.{counted, chosen, numbers_at, offers_at, offers_in};

use message_fields::seek::within;
use message_fields::{Found, Held, under};
use message_layout::role;
use message_layout::types::is_served;
use wire::Width;
use wire::numbers::number_at;

// The greater of a choice and an offer that counts.
fn better(best: u64, offer: u64) -> u64
    ensures { result ≡ max best (counted offer) }
{
    if is_served(offer) {
        best.max(offer)
    } else {
        best
    }
}

// Of a lent list of offers.
pub fn choose(offers: &[u64]) -> u64
    ensures { result ≡ chosen offers.now }
{
    let mut best = 0;
    for &offer in offers {
        best = better(best, offer);
    }
    best
}

// Of a list whose count stands at a place: as many numbers as that says, as far as there are bytes.
fn choose_counted(s: &[u8], place: usize) -> u64
    ensures { result ≡ chosen (numbers_at (number_at 8 s.now place) s.now (place + 8)) }
{
    let count = number_at(s, place, Width::U64);
    let mut rest = &s[within(s, place, 8)..];
    let mut best = 0;
    for _ in 0..count {
        if rest.len() < 8 {
            break;
        }
        best = better(best, number_at(rest, 0, Width::U64));
        rest = &rest[8..];
    }
    best
}

// Of what was found.
#[tactic(auto, unfolding(crate::specs::Choice::chosen))]
fn choose_held(held: Held<'_>) -> u64
    ensures { result ≡ chosen (offers_at held.entry.found held.entry.bytes.now) }
{
    match held.found {
        Some(Found::List { element: _, place }) => choose_counted(held.bytes, place),
        _ => 0,
    }
}

// Of a message's own offers; 0 for a message that is refused or is no 7200.
#[tactic(auto, unfolding(crate::specs::Choice::chosen))]
pub fn choose_version(message: &[u8], version: u64) -> u64
    ensures { result ≡ chosen (offers_in (reading version message.now) message.now) }
{
    match under(message, version, role::PROTOCOL_VERSIONS) {
        Ok(held) => choose_held(held),
        Err(_) => 0,
    }
}
