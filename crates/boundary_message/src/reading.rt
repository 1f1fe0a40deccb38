// The reading calls of include/sootlark.h.
ghost use Rattle.std.specs.Prelude.{◌≡◌};
ghost use Rattle.message_read.specs.Reading.{reading, number_of, type_of, used_of, place_of};
ghost use Rattle.message_fields.specs.Fields.{part_number, number_answer, value_number, value_of, value_place};
ghost use Rattle.message_lists.specs.Elements.{count_of, element_reply, element_value};
ghost use Rattle.message_choice.specs.Choice.{chosen, offers_in};
ghost use Rattle.message_places.specs.Places.{correlation_place, correlation_size, part_place, part_size, element_place, element_size};
ghost use Rattle.boundary_message.specs.Answers.{xid_asked};

use crate::answers::{reported_place, reported_reading, reported_value};
use message_choice::{choose, choose_version};
use message_fields::{Value, number, xid_number};
use message_lists::{count, element_number};
use message_places::{correlation_place, element_place, part_place};
use message_read::read;
use wire::values::XidNumber;
use wire::{Fault, Refused};

// The message at the front of the bytes.
#[unsafe(no_mangle)]
pub extern "C" fn sootlark_read(
    message: &[u8],
    version: u64,
    kind: &mut u64,
    used: &mut usize,
    place: &mut usize,
) -> u64
    ensures value { result ≡ number_of (reading version message.now) }
    ensures kind_after { kind.new ≡ type_of (reading version message.now) }
    ensures used_after { used.new ≡ used_of (reading version message.now) }
    ensures place_after { place.new ≡ place_of (reading version message.now) }
{
    reported_reading(read(message, version), kind, used, place)
}

// The place of the correlation id.
#[tactic(auto, using(message_places::proofs::Placed::correlation_number_is, message_places::proofs::Placed::correlation_offset_is, message_places::proofs::Placed::correlation_length_is, message_places::proofs::Placed::correlation_place_is))]
#[unsafe(no_mangle)]
pub extern "C" fn sootlark_correlation(
    message: &[u8],
    version: u64,
    at: &mut usize,
    size: &mut usize,
    place: &mut usize,
) -> u64
    ensures value { result ≡ number_of (reading version message.now) }
    ensures at_after { at.new ≡ correlation_place (reading version message.now) }
    ensures size_after { size.new ≡ correlation_size (reading version message.now) }
    ensures place_after { place.new ≡ place_of (reading version message.now) }
{
    reported_place(correlation_place(message, version), at, size, place)
}

// The place of a field's bytes.
#[tactic(auto, using(message_places::proofs::Placed::part_number_is, message_places::proofs::Placed::part_offset_is, message_places::proofs::Placed::part_length_is, message_places::proofs::Placed::part_place_is))]
#[unsafe(no_mangle)]
pub extern "C" fn sootlark_part(
    message: &[u8],
    version: u64,
    role: u64,
    at: &mut usize,
    size: &mut usize,
    place: &mut usize,
) -> u64
    ensures value { result ≡ part_number (reading version message.now) role message.now }
    ensures at_after { at.new ≡ part_place (reading version message.now) role message.now }
    ensures size_after { size.new ≡ part_size (reading version message.now) role message.now }
    ensures place_after { place.new ≡ place_of (reading version message.now) }
{
    reported_place(part_place(message, version, role), at, size, place)
}

// The number of a field.
#[unsafe(no_mangle)]
pub extern "C" fn sootlark_field(
    message: &[u8],
    version: u64,
    role: u64,
    value: &mut u64,
    place: &mut usize,
) -> u64
    ensures value { result ≡ value_number (number_answer (reading version message.now) role message.now) }
    ensures value_after { value.new ≡ value_of (number_answer (reading version message.now) role message.now) }
    ensures place_after { place.new ≡ value_place (number_answer (reading version message.now) role message.now) }
{
    reported_value(number(message, version, role), value, place)
}

// A number of the message's xid.
#[unsafe(no_mangle)]
pub extern "C" fn sootlark_xid(
    message: &[u8],
    version: u64,
    which: u64,
    value: &mut u64,
    place: &mut usize,
) -> u64
    ensures value { result ≡ value_number (xid_asked (reading version message.now) which message.now) }
    ensures value_after { value.new ≡ value_of (xid_asked (reading version message.now) which message.now) }
    ensures place_after { place.new ≡ value_place (xid_asked (reading version message.now) which message.now) }
{
    reported_value(xid_asked(message, version, which), value, place)
}

// The number that was asked for, of a message that is accepted.
#[tactic(auto, unfolding(crate::specs::Answers::xid_asked))]
fn xid_asked(message: &[u8], version: u64, which: u64) -> Value
    ensures { result ≡ xid_asked (reading version message.now) which message.now }
{
    match which {
        0 => xid_number(message, version, XidNumber::FormatId),
        1 => xid_number(message, version, XidNumber::GtridLength),
        2 => xid_number(message, version, XidNumber::BqualLength),
        _ => {
            read(message, version)?;
            Err(Refused {
                fault: Fault::NoField,
                place: 0,
            })
        }
    }
}

// How many elements a list has.
#[unsafe(no_mangle)]
pub extern "C" fn sootlark_count(
    message: &[u8],
    version: u64,
    list: u64,
    value: &mut u64,
    place: &mut usize,
) -> u64
    ensures value { result ≡ value_number (count_of (reading version message.now) list message.now) }
    ensures value_after { value.new ≡ value_of (count_of (reading version message.now) list message.now) }
    ensures place_after { place.new ≡ value_place (count_of (reading version message.now) list message.now) }
{
    reported_value(count(message, version, list), value, place)
}

// The place of the bytes of a field of element n.
#[tactic(auto, using(message_places::proofs::Placed::element_number_is, message_places::proofs::Placed::element_offset_is, message_places::proofs::Placed::element_length_is, message_places::proofs::Placed::element_place_is))]
#[unsafe(no_mangle)]
pub extern "C" fn sootlark_element_part(
    message: &[u8],
    version: u64,
    list: u64,
    n: u64,
    role: u64,
    at: &mut usize,
    size: &mut usize,
    place: &mut usize,
) -> u64
    ensures value { result ≡ element_reply (reading version message.now) list n role message.now }
    ensures at_after { at.new ≡ element_place (reading version message.now) list n role message.now }
    ensures size_after { size.new ≡ element_size (reading version message.now) list n role message.now }
    ensures place_after { place.new ≡ place_of (reading version message.now) }
{
    reported_place(
        element_place(message, version, list, n, role),
        at,
        size,
        place,
    )
}

// The number of a field of element n.
#[unsafe(no_mangle)]
pub extern "C" fn sootlark_element_field(
    message: &[u8],
    version: u64,
    list: u64,
    n: u64,
    role: u64,
    value: &mut u64,
    place: &mut usize,
) -> u64
    ensures value { result ≡ value_number (element_value (reading version message.now) list n role message.now) }
    ensures value_after { value.new ≡ value_of (element_value (reading version message.now) list n role message.now) }
    ensures place_after { place.new ≡ value_place (element_value (reading version message.now) list n role message.now) }
{
    reported_value(
        element_number(message, version, list, n, role),
        value,
        place,
    )
}

// The version to choose, of lent offers.
#[unsafe(no_mangle)]
pub extern "C" fn sootlark_choose(offers: &[u64]) -> u64
    ensures { result ≡ chosen offers.now }
{
    choose(offers)
}

// The version to choose, of a 7200's own offers.
#[unsafe(no_mangle)]
pub extern "C" fn sootlark_choose_version(message: &[u8], version: u64) -> u64
    ensures { result ≡ chosen (offers_in (reading version message.now) message.now) }
{
    choose_version(message, version)
}
