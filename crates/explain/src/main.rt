// Reads a message from standard input, and prints one line: why it is refused at version 1004.
// 65,536 bytes are enough to judge any input, since no message is longer and nothing after it is looked at.
// The input here is a 7311, which only version 1004 has, whose first service has the transaction mode 4.
#![tactic(auto)]

use console::read_input;
use explain_line::put_line;
use std::io;
use std::io::Write;
use text::first;

fn main(rt: HostRuntime) -> io::Result<()> {
    let input = read_input(rt.alloc(), rt.stdin())?;
    let mut line = [0u8; 160];
    let length = put_line(&mut line, &input);
    rt.stdout().write_all(first(&line, length))
}
