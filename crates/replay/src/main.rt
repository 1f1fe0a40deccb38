// Replays a script of calls, from standard input, on a fresh endpoint whose other end began the link, and prints one line for each
// reply: the call, its number, the values that it reports, and its whole output. The format of a script is in link_script/specs/Script.antt.
#![tactic(auto)]

ghost use Rattle.std.specs.Prelude.{◌<◌};

use console::read_input;
use link_bytes::{byte, four, two};
use link_calls::make;
use link_script::{Entry, Kind, play_script};
use std::io;
use std::io::Write;

fn word_of(kind: u8) -> &'static str {
    match Kind::of(kind) {
        Some(Kind::Open) => "open",
        Some(Kind::Close) => "close",
        Some(Kind::Request) => "request",
        Some(Kind::Transmit) => "transmit",
        Some(Kind::Read) => "read",
        Some(Kind::Receive) => "receive",
        Some(Kind::Run) => "run",
        None => "",
    }
}

// How many bytes the record at the front of the bytes has.
fn record_length(r: &[u8]) -> usize
    ensures { result < 65556 }
{
    Entry::RECORD_LENGTH + two(r, 18) as usize
}

// One line for the record at the front of the bytes, which has so many. A byte past the end of the transcript is 0.
fn show_record<W: Write>(writer: &mut W, r: &[u8], end: usize) -> io::Result<()> {
    write!(
        writer,
        "{}: answer {} session {} accepted {} used {} written {} output",
        word_of(byte(r, 0)),
        byte(r, 1),
        four(r, 2),
        four(r, 6),
        four(r, 10),
        four(r, 14)
    )?;
    for i in Entry::RECORD_LENGTH..end {
        write!(writer, " {:02x}", byte(r, i))?;
    }
    writeln!(writer)
}

// The first n records.
fn show_records<W: Write>(writer: &mut W, transcript: &[u8], n: usize) -> io::Result<()> {
    let mut rest = transcript;
    for _ in 0..n {
        if rest.is_empty() {
            break;
        }
        let length = record_length(rest);
        show_record(writer, rest, length)?;
        rest = &rest[length.min(rest.len())..];
    }
    Ok(())
}

fn main(rt: HostRuntime) -> io::Result<()> {
    let script = read_input(rt.alloc(), rt.stdin())?;
    let mut store = [0; 32768];
    let mut transcript = [0; 65536];
    let made = make(false, &mut store);
    let played = play_script(
        made.endpoint,
        &mut store,
        script.len(),
        &script,
        &mut transcript,
    );
    show_records(&mut rt.stdout(), &transcript, played.entries)
}
