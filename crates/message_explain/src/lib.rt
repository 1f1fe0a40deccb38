// Why a message is refused: document 02's T-08, in one pass over the message.
// Specifications: specs/Explaining (the reason), specs/Truth (what each reason says of the bytes), specs/Inner (what private functions promise).
// Theorems: proofs/Stopping (the reason from where passing stops is that of the first fault of the walk), proofs/Truth (every reason holds of the
// bytes, and no field before it is at fault), proofs/Only (no other reason holds of them), proofs/Before (how reading differs from the one before
// document 02's T-02: where the reason names the data of a string, and nowhere else).
#![tactic(auto)]

ghost use Rattle.std.specs.Prelude.{◌≡◌};
ghost use Rattle.message_explain.specs.Explaining.{explaining, before, not_whole, header_reason};

use message_layout::limits::{HEADER, SIZE_AT};
use message_read::pass_message;
use message_walk::{Detail, FieldName, Reason};
use wire::numbers::number_at;
use wire::{Fault, Width};

mod stops;

use crate::stops::stop_reason;

// Why the message at the front of the bytes is refused at an agreed version; none where it is accepted.
pub fn explain(message: &[u8], version: u64) -> Option<Reason>
    ensures { result ≡ explaining version message.now }
{
    match pass_message(message, version) {
        Err(refused) => header_reason(message, version, refused.fault),
        Ok(tested) => stop_reason(&message[HEADER..tested.used], tested.kind, tested.fields),
    }
}

// The reason beside a fault of the tests before the fields; those tests give no other fault.
fn header_reason(message: &[u8], version: u64, fault: Fault) -> Option<Reason>
    ensures { result ≡ header_reason fault version message.now }
{
    match fault {
        Fault::NoSuchVersion => Some(in_front(fault, None, Detail::Value { value: version })),
        Fault::NotWhole => Some(not_whole(message)),
        Fault::UnknownType | Fault::NotInVersion => {
            let value = number_at(message, 0, Width::U64);
            Some(in_front(fault, Some(FieldName::HeaderType), Detail::Value { value }))
        }
        Fault::TooLarge => {
            let value = number_at(message, SIZE_AT, Width::U64);
            Some(in_front(fault, Some(FieldName::HeaderSize), Detail::Value { value }))
        }
        _ => None,
    }
}

// A reason in front of the payload.
fn in_front(fault: Fault, field: Option<FieldName>, detail: Detail) -> Reason
    ensures { result ≡ before fault field detail }
{
    Reason {
        fault,
        field,
        index: None,
        detail,
    }
}

// Too few bytes for the header, or for the payload.
fn not_whole(message: &[u8]) -> Reason
    ensures { result ≡ not_whole message.now }
{
    let (field, needed, had) = if message.len() < HEADER {
        (FieldName::Header, HEADER, message.len())
    } else {
        let size = number_at(message, SIZE_AT, Width::U64);
        (FieldName::Payload, size as usize, message.len() - HEADER)
    };
    in_front(Fault::NotWhole, Some(field), Detail::Room { needed, had })
}
