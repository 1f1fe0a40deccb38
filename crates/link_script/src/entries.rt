// The head of an entry.
ghost use Rattle.std.specs.Prelude.{◌≡◌};
ghost use Rattle.link_script.specs.Script.{entry_of, taken};

use crate::{Entry, Kind};
use link_bytes::{byte, four, two};

// The entry at the front of the bytes, where it is known and whole, and the transcript, with so many bytes left, has room for its record.
#[tactic(auto, unfolding(crate::specs::Script::entry_of))]
pub fn taken(bytes: &[u8], left: usize) -> Option<Entry>
    ensures { result ≡ taken (entry_of bytes.now) left }
{
    let kind = Kind::of(byte(bytes, 0))?;
    let entry = Entry {
        kind,
        id: two(bytes, 2),
        session: four(bytes, 4),
        amount: four(bytes, 8),
        room: two(bytes, 12),
        size: two(bytes, 14),
    };
    let end = Entry::ENTRY_LENGTH + entry.size as usize;
    let length = Entry::RECORD_LENGTH + entry.room as usize;
    if end <= bytes.len() && length <= left {
        Some(entry)
    } else {
        None
    }
}
