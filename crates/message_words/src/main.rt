// Prints each type's number, and the names of what stands on its wire in the order of that, each on a line. A list's elements and a part that
// follows a flag are walked once. The file stdout is made from the tables of document 003's fields, and not from this program.
#![tactic(auto)]

use message_layout::elements::row_of;
use message_layout::{Kind, Source};
use message_names::{pieces_of, put_name};
use std::io;
use std::io::Write;
use text::{first, put_text};

const TYPES: [u64; 11] = [
    7200, 7201, 7202, 7203, 7300, 7302, 7311, 3103, 5205, 5206, 6201,
];

fn main(rt: HostRuntime) -> io::Result<()> {
    let mut writer = rt.stdout();
    for message in TYPES {
        writeln!(writer, "{message}")?;
        show_fields(&mut writer, Source::Message { kind: message })?;
    }
    Ok(())
}

// The fields of a message type, each with what follows it by a layout of its own: behind a list's size, or behind a flag.
fn show_fields<W: Write>(writer: &mut W, source: Source) -> io::Result<()> {
    for (k, field) in row_of(source).iter().enumerate() {
        show_pieces(writer, source, k, field.kind)?;
        if let Kind::List { element } | Kind::Optional { element } = field.kind {
            show_items(writer, Source::Element { element })?;
        }
    }
    Ok(())
}

// The fields of an element, none of which is a list.
fn show_items<W: Write>(writer: &mut W, source: Source) -> io::Result<()> {
    for (k, field) in row_of(source).iter().enumerate() {
        show_pieces(writer, source, k, field.kind)?;
    }
    Ok(())
}

// The pieces of field k, each on a line.
fn show_pieces<W: Write>(writer: &mut W, source: Source, k: usize, kind: Kind) -> io::Result<()> {
    for piece in 0..pieces_of(kind) {
        let mut line = [0u8; 160];
        let p = put_name(&mut line, 0, source, k as u64, piece);
        let p = put_text(&mut line, p, b"\n");
        writer.write_all(first(&line, p))?;
    }
    Ok(())
}
