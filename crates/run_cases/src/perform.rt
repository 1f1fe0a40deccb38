// What is done at a row, and what that is answered.
use crate::pieces::{bytes_of, numbers_of};
use cases::Deed;
use link_calls::{close, make, request};
use link_receive::receive;
use link_rows::{Endpoint, Reply, reported};
use message_choice::choose;
use message_read::Reading;
use std::fmt;

// The identifier of the link's cases.
const ID: u16 = 0x8000;

// What each byte of an output is before a call: not 0, so that a zero that is written is seen.
pub const LENT: u8 = 0xAA;

// What a row is answered.
#[derive(Clone, Copy, PartialEq, Eq, Debug)]
pub struct Answered {
    pub number: u64,
    pub place: u64,
    pub value: u64,
}

impl fmt::Display for Answered {
    fn fmt<W: fmt::Write>(&self, f: &mut fmt::Formatter<W>) -> fmt::Result {
        let Answered {
            number,
            place,
            value,
        } = *self;
        write!(f, "number {number} place {place} value {value}")
    }
}

// A message read: its used length, or its refusal.
impl From<Reading> for Answered {
    fn from(reading: Reading) -> Answered {
        match reading {
            Ok(accepted) => Answered {
                number: 0,
                place: 0,
                value: accepted.used as u64,
            },
            Err(refused) => Answered {
                number: refused.fault.into(),
                place: refused.place as u64,
                value: 0,
            },
        }
    }
}

// A call of the link: how many bytes it wrote, or its refusal.
impl From<Reply> for Answered {
    fn from(reply: Reply) -> Answered {
        Answered {
            number: link_rows::number(reply).into(),
            place: 0,
            value: reported(reply).written as u64,
        }
    }
}

// Does what a row says, on the endpoint that the row before it left; the answer, and the output.
pub fn perform(endpoint: &mut Endpoint, store: &mut [u8], deed: Deed) -> (Answered, [u8; 16]) {
    // room for more than any row has: 212 bytes, and three offers
    let mut bytes = [0u8; 512];
    let mut numbers = [0u64; 16];
    let mut out = [LENT; 16];
    let answer = match deed {
        Deed::ReadMessage { version, message } => {
            let message = bytes_of(&mut bytes, message);
            return (message_read::read(message, version).into(), out);
        }
        Deed::ChooseVersion { offers } => {
            let answered = Answered {
                number: 0,
                place: 0,
                value: choose(numbers_of(&mut numbers, offers)),
            };
            return (answered, out);
        }
        Deed::Make => make(false, store),
        Deed::Receive { record } => {
            let record = bytes_of(&mut bytes, record);
            receive(*endpoint, store, record, &mut out)
        }
        Deed::Request { session, amount } => {
            request(*endpoint, store, ID, session, amount, &mut out)
        }
        Deed::Close { session } => close(*endpoint, store, ID, session, &mut out),
        Deed::ReadQueue { session } => { link_calls::read(*endpoint, store, ID, session, &mut out) }
    };
    *endpoint = answer.endpoint;
    (answer.reply.into(), out)
}
