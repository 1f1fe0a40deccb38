// Document 003's names of what stands on the wire, put into a lent buffer as text. Each name stands whole in the code.
// Specification: specs/Names.
#![tactic(auto)]

ghost use Rattle.std.specs.Prelude.{◌≡◌, length};
ghost use Rattle.text.specs.Puts.{Put};
ghost use Rattle.message_names.specs.Names.{pieces, name_of, told, names_in};
ghost use Rattle.message_layout.specs.Table.{entries_from};

use crate::elements::element_names;
use crate::messages::message_names;
use message_layout::{Kind, Source};
use text::put_text;
use wire::Item;

mod elements;
mod messages;

// The name of piece j of field k of a layout; nothing where there is no such piece.
pub fn put_name(out: &mut [u8], at: usize, source: Source, k: u64, piece: u64) -> usize
    ensures { Put (name_of source k piece) out.old at out.new result }
{
    put_text(out, at, name_of(source, k, piece).as_bytes())
}

fn name_of(source: Source, k: u64, piece: u64) -> &'static str
    ensures { result.now ≡ name_of source k piece }
{
    let Some(names) = names_of(source).get(k as usize) else {
        return "";
    };
    let Some(name) = names.get(piece as usize) else {
        return "";
    };
    name
}

// The names of each field's pieces.
#[tactic(auto, unfolding(message_layout::specs::Table::entries_from))]
fn names_of(source: Source) -> &'static [&'static [&'static str]]
    ensures { told result ≡ names_in (entries_from source) }
{
    match source {
        Source::Message { kind } => message_names(kind),
        Source::Element { element } => element_names(element),
    }
}

// How many pieces a field has.
pub fn pieces_of(kind: Kind) -> u64
    ensures { result ≡ length (pieces kind) }
{
    match kind {
        Kind::One { item: Item::Str } => 2,
        Kind::One { item: _ } => 1,
        Kind::List { element: _ } | Kind::Optional { element: _ } => 1,
        Kind::Xid => 4,
    }
}
