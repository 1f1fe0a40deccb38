// The largest message: a 3103 whose data fills the payload to 65,504 bytes, and one byte more. It is written once.
use message_lent::requests::ServiceReply;
use message_write::write;
use roundtrip_report::put_large;
use std::io;
use std::io::Write;
use text::first;

pub fn service_reply<W: Write>(writer: &mut W, data: &[u8]) -> io::Result<()> {
    let mut out = [0u8; 65600];
    let request = ServiceReply {
        correlation: &[1; 16],
        execution: &[2; 16],
        code_result: 11,
        code_user: 42,
        transaction_state: 0,
        buffer_type: b"",
        buffer_data: data,
    };
    let answer = write(&mut out, 1004, &request);
    let mut line = [0u8; 160];
    let length = put_large(&mut line, data.len() as u64, answer);
    writer.write_all(first(&line, length))
}
