// Where the field of a role stands.
ghost use Rattle.std.specs.Prelude.{◌≡◌, ◌+◌};
ghost use Rattle.message_layout.specs.declared.Kind.TheVariants.{One};
ghost use Rattle.message_fields.specs.Fields.{within, found_at, field_in};

use crate::Found;
use message_layout::elements::row_of;
use message_layout::{Kind, Source};
use payload_read::lists::kind_field;
use wire::numbers::number_at;
use wire::{Item, Width};

// The field of that role, of a message type or of an element at the front of s. It stands where those before it ended.
pub fn find(s: &[u8], source: Source, role: u64) -> Option<Found>
    ensures { result ≡ field_in role source s.now }
{
    let mut at = 0;
    for field in row_of(source) {
        if role == field.role {
            return Some(found_at(s, field.kind, at));
        }
        at = kind_field(s, Ok(at), field.kind).ok()?;
    }
    None
}

// What a field at a place has to hand back: the one place where it depends on the kind what is handed back.
fn found_at(s: &[u8], kind: Kind, at: usize) -> Found
    ensures { result ≡ found_at kind s.now at }
{
    match kind {
        Kind::One { item } => item_at(s, item, at),
        Kind::List { element } => Found::List { element, place: at },
        Kind::Optional { element: _ } => Found::Number {
            number: number_at(s, at, Width::U8),
        },
        Kind::Xid => Found::Xid { place: at },
    }
}

// The same of an item.
fn item_at(s: &[u8], item: Item, at: usize) -> Found
    ensures { result ≡ found_at (One item) s.now at }
{
    match item {
        Item::Raw { size } => Found::Bytes { place: at, size },
        Item::Num { width, limits: _ } => Found::Number {
            number: number_at(s, at, width),
        },
        Item::Str => Found::Bytes {
            place: within(s, at, 8),
            size: number_at(s, at, Width::U64) as usize,
        },
    }
}

// The place n bytes after a place, or the end.
pub fn within(s: &[u8], at: usize, n: usize) -> usize
    ensures { result ≡ within s.now (at + n) }
{
    at.saturating_add(n).min(s.len())
}
