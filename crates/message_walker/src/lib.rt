// A walker along the fields on the wire of a payload, which keeps the payload beside its position: thin methods over those of a position in
// crate message_walk, whose specs/Positions says what a step is, and specs/Reasons why a payload is refused.
#![tactic(auto)]

ghost use Rattle.std.specs.Prelude.{◌≡◌};
ghost use Rattle.message_walk.specs.Positions.{start, step_at, walk_from};
ghost use Rattle.message_walk.specs.Reasons.{reason_of};

use message_walk::{Position, Reason, Step};

// A payload, and a position in it.
#[derive(Clone, Copy, PartialEq, Eq, Debug)]
pub struct Walker<'a> {
    pub payload: &'a [u8],
    pub at: Position,
}

impl<'a> Walker<'a> {
    // A walker at the first field of the payload of a message of that type.
    pub fn new(payload: &'a [u8], kind: u64) -> Walker<'a>
        ensures { (result.payload ≡ payload.entry) × (result.at ≡ start kind) }
    {
        Walker {
            payload,
            at: Position::first(kind),
        }
    }

    // What stands where the walker is.
    pub fn step(self) -> Step
        ensures { result ≡ step_at self.entry.payload.now self.entry.at }
    {
        self.at.step(self.payload)
    }

    // Why the payload is refused from where the walker is on: the first fault of what is left of the walk.
    pub fn reason(self) -> Option<Reason>
        ensures { result ≡ reason_of self.entry.payload.now (walk_from self.entry.payload.now self.entry.at) }
    {
        self.at.reason(self.payload)
    }

    // The same walker at another position, as the one that a step gave.
    pub fn moved(self, at: Position) -> Walker<'a>
        ensures { (result.payload ≡ self.entry.payload) × (result.at ≡ at) }
    {
        Walker { at, ..self }
    }

    // Where the walker is.
    pub fn position(self) -> Position
        ensures { result ≡ self.entry.at }
    {
        self.at
    }

    // The payload that it walks along.
    pub fn payload(self) -> &'a [u8]
        ensures { result ≡ self.entry.payload }
    {
        self.payload
    }
}

// What stands first in the payload of a message of that type: a walker is made and asked.
pub fn first_step(payload: &[u8], kind: u64) -> Step
    ensures { result ≡ step_at payload.now (start kind) }
{
    Walker::new(payload, kind).step()
}
