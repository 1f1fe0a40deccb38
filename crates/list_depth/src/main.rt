// Deep searches for an element: in a 7300 of 65,536 bytes whose services are 8,181 empty names, of which the last is asked for, and one more;
// and for the largest number of all, in no bytes and in the bytes of that list, where the search ends with the bytes. The stack that they
// need is measured in docs/PERFORMANCE.md.
#![tactic(auto)]

use message_layout::{Element, role};
use message_lists::element_part;
use message_lists::elements::from_element;
use std::io;
use std::io::Write;

fn main(rt: HostRuntime) -> io::Result<()> {
    let mut writer = rt.stdout();
    let mut message = [0u8; 65536];
    // header.type, header.size, and content.services.size after the execution id, the domain's id and its empty name
    message[..8].copy_from_slice(&7300u64.to_be_bytes());
    message[24..32].copy_from_slice(&65504u64.to_be_bytes());
    message[72..80].copy_from_slice(&8181u64.to_be_bytes());
    ask(&mut writer, &message, 8180)?;
    ask(&mut writer, &message, 8181)?;
    step(&mut writer, &message[..0])?;
    step(&mut writer, &message[80..])
}

// Asks for the name of a service, and prints the answer.
fn ask<W: Write>(writer: &mut W, message: &[u8], n: u64) -> io::Result<()> {
    let (reply, place, length) = match element_part(message, 1004, role::SERVICES, n, role::NAME) {
        Ok(name) => (0, 0, name.len()),
        Err(refused) => (u64::from(refused.fault), refused.place, 0),
    };
    writeln!(
        writer,
        "element {n} answer {reply} place {place} length {length}"
    )
}

// Steps past as many names as the largest number says, and prints how many bytes are left.
fn step<W: Write>(writer: &mut W, names: &[u8]) -> io::Result<()> {
    let left = from_element(names, Element::ServiceName, u64::MAX).len();
    let all = names.len();
    writeln!(
        writer,
        "element 18446744073709551615 of {all} bytes: {left} left"
    )
}
