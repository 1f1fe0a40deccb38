// What stands at a position, and what is wrong with it.
ghost use Rattle.std.specs.Prelude.{◌≡◌, ◌+◌, ◌-◌, length, leb};
ghost use Rattle.wire.specs.Layout.{at_most};
ghost use Rattle.message_layout.specs.declared.Kind.TheVariants as kinds;
ghost use Rattle.message_walk.specs.Walk.{index_of, size_of};
ghost use Rattle.message_walk.specs.Reasons.{value_at, allows, at as reason_at, fault_of, left_over};
ghost use Rattle.message_walk.specs.Positions.{source_in, index_in, form_of, piece_at};

use crate::{Detail, FieldName, Form, Piece, Position, Reason};
use message_layout::{Kind, Source};
use wire::fields::{BQUAL_MOST, GTRID_MOST};
use wire::numbers::number_at;
use wire::{Fault, Item, Limits, Width, bytes_in};

// A size, a count or a formatID, which is not judged.
const COUNT: Form = Form::Number {
    width: Width::U64,
    limits: Limits::ANY,
};

// The number of the element of which `left` are left with it; none where `count` is 0.
pub fn index_of(count: u64, left: u64) -> Option<u64>
    ensures { result ≡ index_of count left }
{
    if count == 0 {
        None
    } else {
        Some(count.saturating_sub(left))
    }
}

// How many bytes there are from a place on.
pub fn had_at(s: &[u8], place: usize) -> usize
    ensures { result ≡ length s.now - place }
{
    s.len().saturating_sub(place)
}

// Whether n bytes at a place lie in the payload.
fn is_there(s: &[u8], place: usize, n: usize) -> bool
    ensures { result ≡ leb (place + n) (length s.now) }
{
    place <= s.len() && n <= s.len() - place
}

// The bytes left over where the walk ends before the payload.
pub fn left_over(s: &[u8], place: usize) -> Option<Reason>
    ensures { result ≡ left_over s.now place }
{
    if place == s.len() {
        return None;
    }
    Some(Reason {
        fault: Fault::BytesAfter,
        field: None,
        index: None,
        detail: Detail::Left {
            left: had_at(s, place),
        },
    })
}

impl Position {
    // The layout that it is in.
    pub fn source(self) -> Source
        ensures { result ≡ source_in self.kind self.within }
    {
        match self.within {
            None => Source::Message { kind: self.kind },
            Some(element) => Source::Element { element },
        }
    }

    // The number of the element that it is in.
    fn index(self) -> Option<u64>
        ensures { result ≡ index_in self.within self.count self.left }
    {
        match self.within {
            None => None,
            Some(_) => index_of(self.count, self.left),
        }
    }

    // The field on the wire that stands here, in a field of that kind.
    pub fn piece_of(self, kind: Kind) -> Piece
        ensures { result ≡ piece_at self kind }
    {
        Piece {
            source: self.source(),
            field: self.field,
            piece: self.piece,
            index: self.index(),
            place: self.place,
            form: Form::of(kind, self.piece, self.told),
        }
    }
}

impl Form {
    // A number that is at most that.
    fn at_most(width: Width, most: u64) -> Form
        ensures { result ≡ Form.Number width (at_most most) }
    {
        Form::Number {
            width,
            limits: Limits::at_most(most),
        }
    }

    // What piece j of a field is, where the pieces before it told a number.
    pub fn of(kind: Kind, piece: u64, told: u64) -> Form
        ensures { result ≡ form_of kind piece told }
    {
        match kind {
            Kind::One { item } => Form::of_item(item, piece, told),
            Kind::List { .. } => COUNT,
            Kind::Optional { .. } => Form::at_most(Width::U8, 1),
            Kind::Xid => Form::of_xid(piece, told),
        }
    }

    fn of_item(item: Item, piece: u64, told: u64) -> Form
        ensures { result ≡ form_of (kinds.One item) piece told }
    {
        match item {
            Item::Raw { size } => Form::Bytes { size },
            Item::Num { width, limits } => Form::Number { width, limits },
            Item::Str if piece == 0 => COUNT,
            Item::Str => Form::Bytes {
                size: told as usize,
            },
        }
    }

    fn of_xid(piece: u64, told: u64) -> Form
        ensures { result ≡ form_of kinds.Xid piece told }
    {
        match piece {
            0 => COUNT,
            1 => Form::at_most(Width::U64, GTRID_MOST),
            2 => Form::at_most(Width::U64, BQUAL_MOST),
            _ => Form::Bytes {
                size: told as usize,
            },
        }
    }

    // How many bytes it has.
    pub fn size(self) -> usize
        ensures { result ≡ size_of self }
    {
        match self {
            Form::Bytes { size } => size,
            Form::Number { width, .. } => bytes_in(width),
        }
    }

    // The number that stands at a place; 0 for bytes.
    pub fn value_at(self, s: &[u8], place: usize) -> u64
        ensures { result ≡ value_at self s.now place }
    {
        match self {
            Form::Bytes { .. } => 0,
            Form::Number { width, .. } => number_at(s, place, width),
        }
    }

    // Whether a value is allowed.
    fn allows(self, value: u64) -> bool
        ensures { result ≡ allows self value }
    {
        match self {
            Form::Bytes { .. } => true,
            Form::Number { limits, .. } => limits.allows(value),
        }
    }
}

impl Piece {
    // A refusal that names it.
    fn refused(self, fault: Fault, detail: Detail) -> Reason
        ensures { result ≡ reason_at self fault detail }
    {
        let Piece {
            source,
            field,
            piece,
            index,
            ..
        } = self;
        Reason {
            fault,
            field: Some(FieldName::Piece {
                source,
                field,
                piece,
            }),
            index,
            detail,
        }
    }

    // What is wrong with it: it does not lie in the payload, or its value is not allowed.
    pub fn fault(self, s: &[u8]) -> Option<Reason>
        ensures { result ≡ fault_of s.now self }
    {
        let needed = self.form.size();
        if !is_there(s, self.place, needed) {
            let had = had_at(s, self.place);
            return Some(self.refused(Fault::RunsPast, Detail::Room { needed, had }));
        }
        let value = self.form.value_at(s, self.place);
        if !self.form.allows(value) {
            return Some(self.refused(Fault::NotAllowed, Detail::Value { value }));
        }
        None
    }
}
