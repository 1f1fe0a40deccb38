// Prints the lines of the programs show and explain for each of many messages from standard input, which has for each of them its
// length, four bytes with the highest first, and its bytes.
// The messages were made from document 003's layouts, and the expected lines were worked out from documents 01, 02 and 003, not by
// this code: every number that can occur at version 1004; each kind of field too short, and each that is judged with a value that is
// not allowed; in lists the first, a middle and the last element, and a count that lies; bytes left over; and some that are accepted.
#![tactic(auto)]

use console::read_input;
use std::io;
use std::io::Write;
use text::first;

fn main(rt: HostRuntime) -> io::Result<()> {
    let input = read_input(rt.alloc(), rt.stdin())?;
    show_cases(&mut rt.stdout(), &input)
}

// The lines of each case. The message of the last one ends with the input, if that is shorter than the length in front of it says.
fn show_cases<W: Write>(writer: &mut W, cases: &[u8]) -> io::Result<()> {
    let mut rest = cases;
    while let Some((length, behind)) = rest.split_first_chunk() {
        let length = u32::from_be_bytes(*length) as usize;
        let (message, next) = behind.split_at(length.min(behind.len()));
        show_case(writer, message)?;
        rest = next;
    }
    Ok(())
}

// The lines of a message: where it is refused, and why.
fn show_case<W: Write>(writer: &mut W, message: &[u8]) -> io::Result<()> {
    let mut line = [0u8; 160];
    let place = show_line::put_line(&mut line, message);
    writer.write_all(first(&line, place))?;
    let reason = explain_line::put_line(&mut line, message);
    writer.write_all(first(&line, reason))
}
