// Reads a message from standard input, decodes it at version 1004, and prints one line.
// 65,536 bytes are enough to judge any input, since no message is longer and nothing after it is looked at.
#![tactic(auto)]

use console::read_input;
use show_line::put_line;
use std::io;
use std::io::Write;
use text::first;

fn main(rt: HostRuntime) -> io::Result<()> {
    let input = read_input(rt.alloc(), rt.stdin())?;
    let mut line = [0u8; 160];
    let length = put_line(&mut line, &input);
    rt.stdout().write_all(first(&line, length))
}
