// A line for each message that was written, read and written again, and the values that are read for that.
#![tactic(auto)]

ghost use Rattle.std.specs.Prelude.{◌≡◌, ◌%◌, cond, length};
ghost use Rattle.message_read.specs.Reading.{reading};
ghost use Rattle.message_fields.specs.Contents.{lent};
ghost use Rattle.message_fields.specs.Fields.{part_bytes};
ghost use Rattle.message_verdict.specs.Writing.{number_of, used_of};
ghost use Rattle.text.specs.Cursors.{Puts};
ghost use Rattle.text.specs.Puts.{Put};
ghost use Rattle.roundtrip_report.specs.Reports.{value_read, is_read, answer_text, head_text, outcome_text, report_line, large_line};

use message_fields::{Part, Value};
use message_read::read;
use message_verdict::Written;
use text::{Cursor, same};

// A value that was read, or a number that no test of these programs expects.
pub fn value(v: Value) -> u64
    ensures { result ≡ value_read v }
{
    v.unwrap_or(0xffff_ffff_ffff_fffe)
}

// The lower four bytes of a value that was read, or a number of four bytes that no test of these programs expects.
pub fn narrow(v: Value) -> u32
    ensures { result ≡ value_read v % 4294967296 }
{
    (value(v) % 0x1_0000_0000) as u32
}

// Bytes that were read, or none.
pub fn bytes<'a>(part: Part<'a>) -> &'a [u8]
    ensures { result.now ≡ part_bytes (lent part.entry) }
{
    match part {
        Ok(bytes) => bytes,
        Err(_) => &[],
    }
}

// Whether a message is accepted as that type, to its last byte.
#[tactic(auto, unfolding(crate::specs::Reports::is_read))]
fn is_read(message: &[u8], version: u64, kind: u64) -> bool
    ensures { result ≡ is_read (reading version message.now) kind (length message.now) }
{
    read(message, version).is_ok_and(|a| a.kind == kind && a.used == message.len())
}

// The number of a writer's answer.
fn number(answer: Written) -> u64
    ensures { result ≡ number_of answer }
{
    match answer {
        Ok(_) => 0,
        Err(fault) => fault.into(),
    }
}

// The used length of a writer's answer.
fn used(answer: Written) -> u64
    ensures { result ≡ used_of answer }
{
    answer.unwrap_or(0) as u64
}

// One text or the other.
fn put_either(line: &mut Cursor, first: bool, one: &[u8], other: &[u8])
    ensures { Puts (cond first one.now other.now) line.old line.new }
{
    if first {
        line.text(one);
    } else {
        line.text(other);
    }
}

// What a writer answered: its number, and how many bytes it wrote.
fn put_answer(line: &mut Cursor, answer: Written)
    ensures { Puts (answer_text answer) line.old line.new }
{
    line.text(b" answer ");
    line.number(number(answer));
    line.text(b" used ");
    line.number(used(answer));
}

// The type, the number of elements and the writer's answer.
fn put_head(line: &mut Cursor, kind: u64, n: u64, answer: Written)
    ensures { Puts (head_text kind n answer) line.old line.new }
{
    line.number(kind);
    line.text(b" elements ");
    line.number(n);
    put_answer(line, answer);
}

// Whether the message is read, and whether the second writing gave the same bytes.
fn put_outcome(line: &mut Cursor, read: bool, again: bool)
    ensures { Puts (outcome_text read again) line.old line.new }
{
    put_either(line, read, b" read,", b" not read,");
    put_either(
        line,
        again,
        b" written again the same\n",
        b" written again otherwise\n",
    );
}

// Puts to the front of a buffer the line of a message that was written, read and written again.
pub fn put_report(
    out: &mut [u8],
    kind: u64,
    n: u64,
    answer: Written,
    message: &[u8],
    version: u64,
    again: &[u8],
) -> usize
    ensures { Put (report_line kind n answer message.now version again.now) out.old 0 out.new result }
{
    let mut line = Cursor { out, at: 0 };
    put_head(&mut line, kind, n, answer);
    put_outcome(
        &mut line,
        is_read(message, version, kind),
        same(message, again),
    );
    line.at
}

// The same for a message that is written once.
pub fn put_large(out: &mut [u8], size: u64, answer: Written) -> usize
    ensures { Put (large_line size answer) out.old 0 out.new result }
{
    let mut line = Cursor { out, at: 0 };
    line.text(b"3103 data ");
    line.number(size);
    put_answer(&mut line, answer);
    line.text(b"\n");
    line.at
}
