// Reads standard input, at most 65,536 bytes, lets a fresh endpoint whose other end began the link receive them, and prints how many
// records were accepted and the number that stopped the run.
#![tactic(auto)]

use console::read_input;
use link_play::put_line;
use std::io;
use std::io::Write;
use text::first;

fn main(rt: HostRuntime) -> io::Result<()> {
    let input = read_input(rt.alloc(), rt.stdin())?;
    let mut store = [0u8; 32768];
    let mut out = [0u8; 65536];
    let mut line = [0u8; 160];
    let length = put_line(&mut line, &mut store, &input, &mut out);
    rt.stdout().write_all(first(&line, length))
}
