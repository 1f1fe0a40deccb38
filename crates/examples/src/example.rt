//! Examples of document 003: a message made of a printed payload, its values compared with those printed beside it.
ghost use Rattle.std.specs.Prelude.{◌≤◌};

use base64::engine::general_purpose::STANDARD;
use message_fields::{Part, number, part, xid_number};
use message_layout::limits::{HEADER, SIZE_AT};
use message_lists::{count, element_number, element_part};
use message_read::read;
use std::io;
use std::io::{ErrorKind, Write};
use wire::values::XidNumber;

// How many values were compared, and how many are the same.
#[derive(Clone, Copy, Default)]
pub struct Tally {
    pub same: u64,
    pub all: u64,
}

impl Tally {
    pub fn of(values: &[bool]) -> Tally {
        Tally {
            same: values.iter().filter(|&&same| same).count() as u64,
            all: values.len() as u64,
        }
    }

    pub fn add(&mut self, other: Tally) {
        self.same = self.same.wrapping_add(other.same);
        self.all = self.all.wrapping_add(other.all);
    }
}

// A message, read at a version. Each method says whether a value is the one that 003 prints.
#[derive(Clone, Copy)]
pub struct Message<'a> {
    bytes: &'a [u8],
    version: u64,
}

impl<'a> Message<'a> {
    pub fn part(self, role: u64, printed: &[u8]) -> bool {
        is_part(part(self.bytes, self.version, role), printed)
    }

    // Bytes that 003 prints in base64.
    pub fn coded(self, role: u64, line: &str) -> bool {
        is_coded(part(self.bytes, self.version, role), line)
    }

    pub fn number(self, role: u64, printed: u64) -> bool {
        number(self.bytes, self.version, role) == Ok(printed)
    }

    pub fn xid(self, which: XidNumber, printed: u64) -> bool {
        xid_number(self.bytes, self.version, which) == Ok(printed)
    }

    pub fn count(self, list: u64, printed: u64) -> bool {
        count(self.bytes, self.version, list) == Ok(printed)
    }

    pub fn element(self, list: u64, n: u64, role: u64, printed: &[u8]) -> bool {
        is_part(
            element_part(self.bytes, self.version, list, n, role),
            printed,
        )
    }

    pub fn coded_element(self, list: u64, n: u64, role: u64, line: &str) -> bool {
        is_coded(element_part(self.bytes, self.version, list, n, role), line)
    }

    pub fn element_number(self, list: u64, n: u64, role: u64, printed: u64) -> bool {
        element_number(self.bytes, self.version, list, n, role) == Ok(printed)
    }
}

// As many bytes as a payload can have here: what a buffer of 512 bytes leaves behind the header.
const MOST: usize = 480;

// An example: a message with its payload behind the header, in a buffer on the stack, so that no memory can run out.
#[derive(Drop)]
pub struct Example {
    kind: u64,
    version: u64,
    size: usize,
    bytes: [u8; 512],
    ghost inside: { size ≤ 480 },
}

impl Example {
    // The message of a type at a version, with the payload that a line of base64 holds, and a correlation of zeros.
    pub fn new(kind: u64, version: u64, line: &str) -> io::Result<Example> {
        let mut bytes = [0u8; 512];
        let Ok(size) = STANDARD.decode_slice(line.as_bytes(), &mut bytes[HEADER..]) else {
            return Err(io::Error::from(ErrorKind::InvalidData));
        };
        bytes[..8].copy_from_slice(&kind.to_be_bytes());
        bytes[SIZE_AT..HEADER].copy_from_slice(&(size as u64).to_be_bytes());
        Ok(Example {
            kind,
            version,
            size,
            bytes,
        })
    }

    pub fn message(&self) -> Message {
        Message {
            bytes: &self.bytes[..HEADER + self.size],
            version: self.version,
        }
    }

    // Gives the payload another size, or as much of it as fits. The bytes stay: what is cut off is there again later, and behind the payload
    // are zeros.
    fn resize(&mut self, size: usize) {
        self.size = size.min(MOST);
        self.bytes[SIZE_AT..HEADER].copy_from_slice(&(self.size as u64).to_be_bytes());
    }

    // Prints the line of the example: how many values are the same, and the answers to its payload cut short by a byte and with a byte added.
    pub fn print<W: Write>(mut self, writer: &mut W, tally: Tally) -> io::Result<Tally> {
        let Tally { same, all } = tally;
        let kind = self.kind;
        write!(writer, "{kind} values {same} of {all}, cut: ")?;
        let whole = self.size;
        self.resize(whole.saturating_sub(1));
        self.print_answer(writer)?;
        writer.write_all(b", longer: ")?;
        self.resize(whole + 1);
        self.print_answer(writer)?;
        writer.write_all(b"\n")?;
        Ok(tally)
    }

    // Prints the answer to the message with the payload as it stands.
    fn print_answer<W: Write>(&self, writer: &mut W) -> io::Result<()> {
        match read(self.message().bytes, self.version) {
            Ok(_) => writer.write_all(b"answer 0")?,
            Err(refused) => {
                let number = u64::from(refused.fault);
                let place = refused.place;
                write!(writer, "answer {number} place {place}")?;
            }
        }
        Ok(())
    }
}

fn is_part(part: Part, printed: &[u8]) -> bool {
    part.map_or(false, |bytes| bytes == printed)
}

// Whether bytes are those that a line of base64 holds.
fn is_coded(part: Part, line: &str) -> bool {
    let mut printed = [0u8; 192];
    match (part, STANDARD.decode_slice(line.as_bytes(), &mut printed)) {
        (Ok(bytes), Ok(n)) => bytes == &printed[..n],
        _ => false,
    }
}
