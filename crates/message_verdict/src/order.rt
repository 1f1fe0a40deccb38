// The order of the tests.
ghost use Rattle.std.specs.Prelude.{◌≡◌};
ghost use Rattle.message_verdict.specs.Writing.{verdict};

use crate::Written;
use message_layout::limits::{HEADER, SIZE_MOST};
use message_layout::types::{is_served, versions_of};
use wire::Fault;

// The answer: whether the version is served and has the type, what the tests of 48 and 45 said, the
// payload's size, and the output's.
#[tactic(auto, unfolding(crate::specs::Writing::verdict))]
pub fn judge(
    version: u64,
    kind: u64,
    agree: bool,
    allowed: bool,
    size: usize,
    room: usize,
) -> Written
    ensures { result ≡ verdict version kind agree allowed size room }
{
    if !is_served(version) {
        return Err(Fault::NoSuchVersion);
    }
    let versions = versions_of(kind).ok_or(Fault::NotInVersion)?;
    if !versions.holds(version) {
        return Err(Fault::NotInVersion);
    }
    if !agree {
        return Err(Fault::ListsDiffer);
    }
    if !allowed {
        return Err(Fault::NotAllowed);
    }
    if SIZE_MOST < size {
        return Err(Fault::TooLarge);
    }
    let used = HEADER + size;
    if room < used {
        return Err(Fault::OutputShort);
    }
    Ok(used)
}
