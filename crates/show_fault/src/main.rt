// The program show on a message that is refused: a 7311, which only version 1004 has, whose first service has the transaction mode 4,
// 66 bytes into the payload.
#![tactic(auto)]

use console::read_input;
use show_line::put_line;
use std::io;
use std::io::Write;
use text::first;

fn main(rt: HostRuntime) -> io::Result<()> {
    let input = read_input(rt.alloc(), rt.stdin())?;
    let mut line = [0u8; 160];
    let length = put_line(&mut line, &input);
    rt.stdout().write_all(first(&line, length))
}
