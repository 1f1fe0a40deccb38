// A script of calls, played on an endpoint and its store: each entry is performed by the call itself, and its answer and output go
// to a transcript. The formats are in specs/Script.antt.
#![tactic(auto)]

ghost use Rattle.std.specs.Prelude.{◌≡◌};
ghost use Rattle.link_script.specs.Script.{kind_number, kind_of};
ghost use Rattle.link_script.specs.Play.{playing, Plays};

use link_rows::{Endpoint, Reply};

mod entries;
mod perform;

// The call that an entry is for.
#[derive(Clone, Copy, PartialEq, Eq, Debug)]
pub enum Kind {
    Open,
    Close,
    Request,
    Transmit,
    Read,
    Receive,
    Run,
}

impl Kind {
    // The kind of a number, in an entry or a record; none has another.
    pub fn of(number: u8) -> Option<Kind>
        ensures { result ≡ kind_of number }
    {
        match number {
            1 => Some(Kind::Open),
            2 => Some(Kind::Close),
            3 => Some(Kind::Request),
            4 => Some(Kind::Transmit),
            5 => Some(Kind::Read),
            6 => Some(Kind::Receive),
            7 => Some(Kind::Run),
            _ => None,
        }
    }
}

impl From<Kind> for u8 {
    ghost from_gives = { λ kind n. n ≡ kind_number kind };

    fn from(kind: Kind) -> u8 {
        match kind {
            Kind::Open => 1,
            Kind::Close => 2,
            Kind::Request => 3,
            Kind::Transmit => 4,
            Kind::Read => 5,
            Kind::Receive => 6,
            Kind::Run => 7,
        }
    }
}

// The head of an entry that is taken.
#[derive(Clone, Copy, PartialEq, Eq, Debug)]
pub struct Entry {
    pub kind: Kind,
    pub id: u16,
    pub session: u32,
    // A request's amount, or the n of a run.
    pub amount: u32,
    // The length of the output.
    pub room: u16,
    // The length of the data.
    pub size: u16,
}

impl Entry {
    // The bytes of an entry's head, and of a record's.
    pub const ENTRY_LENGTH: usize = 16;

    pub const RECORD_LENGTH: usize = 20;
}

// What a call reports, with the later endpoint.
#[derive(Clone, Copy, PartialEq, Eq, Debug)]
pub struct Did {
    pub reply: Reply,
    pub accepted: usize,
    pub used: usize,
    pub written: usize,
    pub endpoint: Endpoint,
}

// The entries performed, their bytes, the bytes of their records, and the later endpoint.
#[derive(Clone, Copy, PartialEq, Eq, Debug)]
pub struct Played {
    pub entries: usize,
    pub used: usize,
    pub written: usize,
    pub endpoint: Endpoint,
}

// At most n entries, until one is unknown, cut short, or has no room in the transcript.
pub fn play_script(
    e: Endpoint,
    store: &mut [u8],
    n: usize,
    script: &[u8],
    transcript: &mut [u8],
) -> Played
    ensures { Plays (playing n e store.old script.now transcript.old) result store.new transcript.new }
{
    let mut played = Played {
        entries: 0,
        used: 0,
        written: 0,
        endpoint: e,
    };
    for _ in 0..n {
        let rest = &script[played.used..];
        let left = &mut transcript[played.written..];
        let Some(entry) = entries::taken(rest, left.len()) else {
            break;
        };
        played.endpoint = perform::perform(played.endpoint, store, entry, rest, left);
        played.entries += 1;
        played.used += Entry::ENTRY_LENGTH + entry.size as usize;
        played.written += Entry::RECORD_LENGTH + entry.room as usize;
    }
    played
}
