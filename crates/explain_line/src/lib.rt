// The line of the program explain: why a message is refused at version 1004.
// Specifications: specs/Parts (the parts of a reason), specs/Lines (the line).
// Theorems: proofs/Lengths (every line has at most 160 bytes), proofs/Examples (lines as document 02 has them).
#![tactic(auto)]

ghost use Rattle.std.specs.Prelude.{◌≤◌, length};
ghost use Rattle.text.specs.Text.{decimal};
ghost use Rattle.text.specs.Cursors.{Puts};
ghost use Rattle.text.specs.Puts.{Put, Line};
ghost use Rattle.message_explain.specs.Explaining.{explaining};
ghost use Rattle.explain_line.specs.Parts.{field_word};
ghost use Rattle.explain_line.specs.Lines.{numbered, field_part, element_part, detail_part, parts as parts_text, explain_line};

use message_explain::explain;
use message_names::put_name;
use message_walk::{Detail, FieldName, Reason};
use text::{Cursor, put_text};

pub mod parts;

use crate::parts::Numbers;

// The name of a field; nothing where none is named.
#[tactic(auto, unfolding(crate::specs::Parts::field_word))]
pub fn put_field_name(out: &mut [u8], at: usize, field: Option<FieldName>) -> usize
    ensures { Put (field_word field) out.old at out.new result }
{
    match field {
        None => put_text(out, at, b""),
        Some(FieldName::Header) => put_text(out, at, b"header"),
        Some(FieldName::Payload) => put_text(out, at, b"payload"),
        Some(FieldName::HeaderType) => put_text(out, at, b"header.type"),
        Some(FieldName::HeaderSize) => put_text(out, at, b"header.size"),
        Some(
            FieldName::Piece {
                source,
                field,
                piece,
            },
        ) => put_name(out, at, source, field, piece),
    }
}

// Words, and a number behind them, which has at most 20 digits.
#[tactic(auto, using(text::proofs::Decimal::length_word))]
fn put_number(line: &mut Cursor, before: &[u8], n: u64)
    ensures put { Puts (numbered before.now n) line.old line.new }
    ensures n_len_bound { length (decimal n) ≤ 20 }
{
    line.text(before);
    line.number(n);
}

// The field, if one is named.
fn put_field(line: &mut Cursor, field: Option<FieldName>)
    ensures { Puts (field_part field) line.old line.new }
{
    if field.is_some() {
        line.text(b" field ");
        line.at = put_field_name(line.out, line.at, field);
    }
}

// The element, if the field is in one.
#[tactic(auto, using(text::proofs::Chain::put_none), unfolding(crate::specs::Lines::element_part))]
fn put_element(line: &mut Cursor, index: Option<u64>)
    ensures put { Puts (element_part index) line.old line.new }
    ensures index_len_bound { length (element_part index) ≤ 29 }
{
    if let Some(number) = index {
        put_number(line, b" element ", number);
    }
}

// What is wrong.
#[tactic(auto, unfolding(crate::specs::Lines::detail_part))]
fn put_detail(line: &mut Cursor, detail: Detail)
    ensures put { Puts (detail_part detail) line.old line.new }
    ensures detail_len_bound { length (detail_part detail) ≤ 53 }
{
    match detail {
        Detail::Room { needed, had } => {
            put_number(line, b" needed ", needed as u64);
            put_number(line, b" had ", had as u64);
        }
        Detail::Value { value } => put_number(line, b" value ", value),
        Detail::Left { left } => put_number(line, b" left ", left as u64),
    }
}

// All of them; none of an accepted message.
fn put_parts(line: &mut Cursor, reason: Option<Reason>)
    ensures put { Puts (parts_text reason) line.old line.new }
    ensures reason_len_bound { length (parts_text reason) ≤ 137 }
{
    if let Some(reason) = reason {
        put_field(line, reason.field);
        put_element(line, reason.index);
        put_detail(line, reason.detail);
    }
}

// The line of a reason; how many bytes it has.
fn put_reason(out: &mut [u8; 160], reason: Option<Reason>) -> usize
    ensures { Line (explain_line reason) out.old out.new result }
{
    let mut line = Cursor { out, at: 0 };
    put_number(&mut line, b"answer ", Numbers::of(reason).number);
    put_parts(&mut line, reason);
    line.text(b"\n");
    line.at
}

// Puts the line of a message, which is judged at version 1004, to the front of the buffer; how many bytes it has.
pub fn put_line(out: &mut [u8; 160], message: &[u8]) -> usize
    ensures { Line (explain_line (explaining 1004 message.now)) out.old out.new result }
{
    put_reason(out, explain(message, 1004))
}
