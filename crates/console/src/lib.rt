//! What the programs read: standard input, as far as it can matter.
#![tactic(auto)]

ghost use Rattle.std.specs.Prelude.{◌≡◌, ◌≤◌, IfOk, IfSome, take, vec_len};

use std::alloc::Global;
use std::io;
use std::io::Read;

// No message and no script is longer, and a program looks at no byte behind these.
pub const INPUT_MOST: usize = 65536;

// The bytes of an input up to its end, or the first 65,536 of them.
pub fn read_input<R: Read + Drop>(alloc: Global, input: R) -> io::Result<Vec<u8>>
    ensures bound { IfOk result (λ read. vec_len read ≤ 65536) }
    ensures bytes { IfOk result (λ read. IfSome (R.remaining input) (λ xs. read.items ≡ take 65536 xs)) }
{
    let mut read = Vec::new(alloc);
    input.take(INPUT_MOST as u64).read_to_end(&mut read)?;
    read.truncate(INPUT_MOST);
    Ok(read)
}
