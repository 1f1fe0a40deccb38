// The reason from where passing over the fields of a payload stopped.
ghost use Rattle.std.specs.Prelude.{◌≡◌, ◌≤◌, Ok, IfOk};
ghost use Rattle.wire.specs.Numbers.{Bytes};
ghost use Rattle.payload_read.specs.Stops.{stop_of};
ghost use Rattle.message_walk.specs.Walk.{walk};
ghost use Rattle.message_walk.specs.Reasons.{reason_of};
ghost use Rattle.message_explain.specs.Inner.{short, not_allowed, told_reason, refused_at, told_of, number_told, number_in, str_told, xid_told, xid_data, length_in};

use message_layout::Source;
use message_walk::pieces::{had_at, index_of, left_over};
use message_walk::{Detail, FieldName, Reason};
use payload_read::{Passed, Shape, Stop};
use wire::fields::{BQUAL_MOST, GTRID_MOST};
use wire::numbers::number_at;
use wire::{Fault, Width, bytes_in};

// The pieces of a string, and of an xid, as crate message_names counts them.
const STR_SIZE: u64 = 0;

const STR_DATA: u64 = 1;

const FORMAT_ID: u64 = 0;

const GTRID_LENGTH: u64 = 1;

const BQUAL_LENGTH: u64 = 2;

const XID_DATA: u64 = 3;

// What is wrong with a field: the piece of it that is at fault, and how.
#[derive(Clone, Copy, PartialEq, Eq, Debug)]
struct Told {
    piece: u64,
    fault: Fault,
    detail: Detail,
}

// The first fault of a payload, from where passing over its fields stops: the bytes left over behind the last, or what is wrong with that field.
pub fn stop_reason(s: &[u8], kind: u64, passed: Passed) -> Option<Reason>
    requires bytes { Bytes s.now }
    requires stop_value { passed ≡ stop_of kind s.now }
    ensures { result ≡ reason_of s.now (walk s.now kind) }
{
    match passed {
        Ok(end) => left_over(s, end),
        Err(stop) => Some(refused_at(s, kind, stop)),
    }
}

// The reason at a field that is refused, in a message of that type.
fn refused_at(s: &[u8], kind: u64, stop: Stop) -> Reason
    ensures { result ≡ refused_at (Source.Message kind) None s.now stop }
{
    let told = told_of(s, stop.shape, stop.start);
    match stop.within {
        None => told.reason(Source::Message { kind }, stop.field, None),
        Some(list) => {
            let source = Source::Element {
                element: list.element,
            };
            told.reason(source, stop.field, index_of(list.count, list.left))
        }
    }
}

impl Told {
    // A piece whose bytes run past.
    fn short(piece: u64, needed: usize, had: usize) -> Told
        ensures { result ≡ short piece needed had }
    {
        Told {
            piece,
            fault: Fault::RunsPast,
            detail: Detail::Room { needed, had },
        }
    }

    // A piece whose value is not allowed.
    fn not_allowed(piece: u64, value: u64) -> Told
        ensures { result ≡ not_allowed piece value }
    {
        Told {
            piece,
            fault: Fault::NotAllowed,
            detail: Detail::Value { value },
        }
    }

    // The reason that names the piece, of that field of a layout.
    fn reason(self, source: Source, field: u64, index: Option<u64>) -> Reason
        ensures { result ≡ told_reason source field index self }
    {
        Reason {
            fault: self.fault,
            field: Some(FieldName::Piece {
                source,
                field,
                piece: self.piece,
            }),
            index,
            detail: self.detail,
        }
    }
}

// What is wrong with a field of that shape, which is refused.
fn told_of(s: &[u8], shape: Shape, start: usize) -> Told
    ensures { result ≡ told_of shape s.now start }
{
    match shape {
        Shape::Bytes { size } => Told::short(0, size, had_at(s, start)),
        Shape::Number { width } => number_told(s, width, start),
        Shape::Str => str_told(s, start),
        Shape::Xid => xid_told(s, start),
    }
}

// The number that is a piece, or that its bytes run past.
fn number_in(s: &[u8], piece: u64, width: Width, at: usize) -> Result<u64, Told>
    ensures { result ≡ number_in piece width s.now at }
{
    let needed = bytes_in(width);
    let had = had_at(s, at);
    if had < needed {
        return Err(Told::short(piece, needed, had));
    }
    Ok(number_at(s, at, width))
}

// A number: its bytes, or else its value.
fn number_told(s: &[u8], width: Width, start: usize) -> Told
    ensures { result ≡ number_told width s.now start }
{
    match number_in(s, 0, width, start) {
        Ok(value) => Told::not_allowed(0, value),
        Err(told) => told,
    }
}

// A string: its size, or else its data.
fn str_told(s: &[u8], start: usize) -> Told
    ensures { result ≡ str_told s.now start }
{
    match number_in(s, STR_SIZE, Width::U64, start) {
        Ok(size) => Told::short(STR_DATA, size as usize, had_at(s, start + 8)),
        Err(told) => told,
    }
}

// An xid: its formatID, a length, or else its data.
fn xid_told(s: &[u8], start: usize) -> Told
    ensures { result ≡ xid_told s.now start }
{
    match xid_data(s, start) {
        Ok(size) => Told::short(XID_DATA, size, had_at(s, start + 24)),
        Err(told) => told,
    }
}

// How many bytes the data of an xid has, by its two lengths; or what is wrong in front of the data.
fn xid_data(s: &[u8], start: usize) -> Result<usize, Told>
    ensures { result ≡ xid_data s.now start }
{
    number_in(s, FORMAT_ID, Width::U64, start)?;
    let gtrid = length_in(s, GTRID_LENGTH, start + 8, GTRID_MOST)?;
    let bqual = length_in(s, BQUAL_LENGTH, start + 16, BQUAL_MOST)?;
    Ok((gtrid + bqual) as usize)
}

// A length of an xid, which is at most that; or what is wrong with it.
fn length_in(s: &[u8], piece: u64, at: usize, most: u64) -> Result<u64, Told>
    ensures { result ≡ length_in piece most s.now at }
{
    let length = number_in(s, piece, Width::U64, at)?;
    if most < length {
        return Err(Told::not_allowed(piece, length));
    }
    Ok(length)
}
