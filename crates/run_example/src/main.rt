// Reads the bytes of layout_example/proofs/Examples by that layout, and prints a line for each: `answer 0 end N`, or document 01's number and the
// faulty field's place.
#![tactic(auto)]

use layout_example::read_example;
use std::io;
use std::io::Write;
use wire::Refused;

// What some bytes are, and the bytes.
const EXAMPLES: [(&str, &[u8]); 13] = [
    ("flag 0", &[7, 8, 0, 3]),
    ("flag 1", &[7, 8, 1, 0, 0, 0, 0, 0, 0, 0x12, 0x34, 3]),
    // Other flags, and none.
    ("flag 2", &[7, 8, 2, 0, 0, 0, 0, 0, 0, 0x12, 0x34, 3]),
    ("flag 2, nothing behind it", &[7, 8, 2]),
    ("flag 255", &[7, 8, 255, 3]),
    ("no flag", &[7, 8]),
    // Too few bytes behind a flag.
    (
        "flag 1, seven bytes behind it",
        &[7, 8, 1, 0, 0, 0, 0, 0, 0, 0x12],
    ),
    ("flag 1, nothing behind it", &[7, 8, 1]),
    ("flag 0, nothing behind it", &[7, 8, 0]),
    ("flag 1, no state", &[7, 8, 1, 0, 0, 0, 0, 0, 0, 0x12, 0x34]),
    // A state that is not allowed, and a byte too many.
    ("flag 0, state 4", &[7, 8, 0, 4]),
    ("flag 0, a byte too many", &[7, 8, 0, 3, 9]),
    (
        "flag 1, a byte too many",
        &[7, 8, 1, 0, 0, 0, 0, 0, 0, 0x12, 0x34, 3, 9],
    ),
];

fn main(rt: HostRuntime) -> io::Result<()> {
    let mut writer = rt.stdout();
    for (name, bytes) in EXAMPLES {
        match read_example(bytes) {
            Ok(end) => writeln!(writer, "{name}: answer 0 end {end}")?,
            Err(Refused { fault, place }) => {
                let answer = u64::from(fault);
                writeln!(writer, "{name}: answer {answer} place {place}")?;
            }
        }
    }
    Ok(())
}
