// Numbers at a place of a slice.
ghost use Rattle.std.specs.Prelude.{◌≡◌};
ghost use Rattle.wire.specs.Layout.{size};
ghost use Rattle.wire.specs.Numbers.{number_at};

use crate::digits::join;
use crate::{Width, bytes_in};

// The number of that width at a place: of the bytes that are there, where some are missing.
pub fn number_at(s: &[u8], at: usize, width: Width) -> u64
    ensures { result ≡ number_at (size width) s.now at }
{
    let n = bytes_in(width);
    let rest = &s[at.min(s.len())..];
    if rest.len() < n {
        join(rest)
    } else {
        join(&rest[..n])
    }
}
