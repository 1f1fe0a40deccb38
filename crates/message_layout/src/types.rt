// At which versions each type is.
ghost use Rattle.std.specs.Prelude.{◌≡◌, Some};
ghost use Rattle.message_layout.specs.Table.{versions_of, holds, served};

use crate::Versions;
use crate::limits::{FIRST_VERSION, LAST_VERSION};

impl Versions {
    // Whether a version is one of these.
    pub fn holds(self, version: u64) -> bool
        ensures { result ≡ holds (Some self) version }
    {
        self.first <= version && version <= self.last
    }
}

// The versions that can be agreed.
const SERVED: Versions = Versions {
    first: FIRST_VERSION,
    last: LAST_VERSION,
};

// Whether a version can be agreed.
pub fn is_served(version: u64) -> bool
    ensures { result ≡ served version }
{
    SERVED.holds(version)
}

// The versions of a type, if it is known.
#[tactic(auto, unfolding(crate::specs::Table::versions_of))]
pub fn versions_of(message: u64) -> Option<Versions>
    ensures { result ≡ versions_of message }
{
    let (first, last) = match message {
        7200 | 7201 | 7300 | 5205 | 5206 => (FIRST_VERSION, LAST_VERSION),
        7202 | 7203 => (1001, LAST_VERSION),
        7302 => (1002, LAST_VERSION),
        3103 => (1003, LAST_VERSION),
        7311 => (1004, LAST_VERSION),
        6201 => (FIRST_VERSION, 1002),
        _ => return None,
    };
    Some(Versions { first, last })
}
