// An answer as document 01's number and its values, each 0 where there is none.
ghost use Rattle.std.specs.Prelude.{◌≡◌};
ghost use Rattle.wire.specs.Replies.{number};
ghost use Rattle.message_read.specs.Reading.{number_of, type_of, used_of, place_of};
ghost use Rattle.message_fields.specs.Fields.{value_number, value_of, value_place};
ghost use Rattle.message_places.specs.Places.{offset_of, length_of};
ghost use Rattle.message_verdict.specs.Writing as wrote;

use message_fields::Value;
use message_places::Placed;
use message_read::Reading;
use message_verdict::Written;
use wire::Refused;

// A refusal: its number, and its place.
fn reported(refused: Refused, place: &mut usize) -> u64
    ensures value { result ≡ number refused.fault }
    ensures place_after { place.new ≡ refused.place }
{
    *place = refused.place;
    refused.fault.into()
}

// What reading a message came to.
pub fn reported_reading(answer: Reading, kind: &mut u64, length: &mut usize, at: &mut usize) -> u64
    ensures value { result ≡ number_of answer }
    ensures kind_after { kind.new ≡ type_of answer }
    ensures length_after { length.new ≡ used_of answer }
    ensures at_after { at.new ≡ place_of answer }
{
    *kind = 0;
    *length = 0;
    *at = 0;
    match answer {
        Ok(accepted) => {
            *kind = accepted.kind;
            *length = accepted.used;
            0
        }
        Err(refused) => reported(refused, at),
    }
}

// A number, or why there is none.
pub fn reported_value(answer: Value, value: &mut u64, at: &mut usize) -> u64
    ensures value { result ≡ value_number answer }
    ensures value_after { value.new ≡ value_of answer }
    ensures at_after { at.new ≡ value_place answer }
{
    *value = answer.unwrap_or(0);
    *at = 0;
    match answer {
        Ok(_) => 0,
        Err(refused) => reported(refused, at),
    }
}

// The place of a part, or why there is none.
pub fn reported_place(answer: Placed, at: &mut usize, size: &mut usize, place: &mut usize) -> u64
    ensures value { result ≡ value_number answer }
    ensures at_after { at.new ≡ offset_of answer }
    ensures size_after { size.new ≡ length_of answer }
    ensures place_after { place.new ≡ value_place answer }
{
    *at = 0;
    *size = 0;
    *place = 0;
    match answer {
        Ok(part) => {
            *at = part.at;
            *size = part.size;
            0
        }
        Err(refused) => reported(refused, place),
    }
}

// What writing a message came to.
pub fn reported_writing(answer: Written, used: &mut usize) -> u64
    ensures value { result ≡ wrote.number_of answer }
    ensures used_after { used.new ≡ wrote.used_of answer }
{
    match answer {
        Ok(all) => {
            *used = all;
            0
        }
        Err(fault) => {
            *used = 0;
            fault.into()
        }
    }
}
