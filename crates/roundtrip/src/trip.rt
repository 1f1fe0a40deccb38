// The way of each message: it is written, read and written again, and a line says how that went.
use crate::message::Message;
use message_payloads::request::Request;
use message_verdict::{Written, part_written};
use message_write::write;
use roundtrip_report::put_report;
use std::io;
use std::io::Write;
use text::first;

// The version that all are written at.
const VERSION: u64 = 1004;

// Writes a request, and by `again` what its message says; prints the line.
pub fn round_trip<W: Write, R: Request, A: Fn(Message<'_>, &mut [u8]) -> Written>(
    writer: &mut W,
    request: &R,
    again: A,
) -> io::Result<()>
    requires { A.IsAlwaysCallable again }
{
    let mut out = [170u8; 512];
    let answer = write(&mut out, VERSION, request);
    let message = Message {
        bytes: part_written(&out, answer),
        version: VERSION,
    };
    let mut second = [170u8; 512];
    let repeated = again(message, &mut second);
    let mut line = [0u8; 160];
    let length = put_report(
        &mut line,
        request.kind(),
        0,
        answer,
        message.bytes,
        VERSION,
        part_written(&second, repeated),
    );
    writer.write_all(first(&line, length))
}
