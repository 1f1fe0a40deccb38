// The single receive of a record, and the run of many. Receiving decides from the endpoint, the record's head and lengths alone, then
// does what the reply says.
#![tactic(auto, unfolding(crate::specs::Receive::received_row))]

ghost use Rattle.link_changes.specs.Outcome.{Leaves};
ghost use Rattle.link_receive.specs.Receive.{receiving};
ghost use Rattle.link_receive.specs.Run.{running};
ghost use Rattle.link_receive.specs.Ran.{Runs};

use link_replies::ready;
use link_rows::{Answer, Endpoint, Reply};

mod records;
mod rows;
mod step;

// What a run reports: how many records it accepted, how many bytes they have, how many it wrote, and the refusal that stopped it (Ok of
// nothing where none did), with the later endpoint.
#[derive(Clone, Copy, PartialEq, Eq, Debug)]
pub struct Ran {
    pub accepted: usize,
    pub used: usize,
    pub written: usize,
    pub stop: Reply,
    pub endpoint: Endpoint,
}

// The record at the front of the bytes: answers it, and leaves what that answer says.
pub fn receive(e: Endpoint, store: &mut [u8], bytes: &[u8], out: &mut [u8]) -> Answer
    ensures { Leaves (receiving e store.old bytes.now out.old) result store.new out.new }
{
    match ready(e, store.len()) {
        Err(why) => Answer {
            reply: Err(why),
            endpoint: e,
        },
        Ok(()) => {
            let mut endpoint = e;
            let reply = step::step(&mut endpoint, store, bytes, out);
            Answer { reply, endpoint }
        }
    }
}

// At most n records, one after another. The tests 2, 3 and 4 are made once.
pub fn run(e: Endpoint, store: &mut [u8], n: usize, bytes: &[u8], out: &mut [u8]) -> Ran
    ensures { Runs (running n e store.old bytes.now out.old) result store.new out.new }
{
    match ready(e, store.len()) {
        Err(why) => Ran {
            accepted: 0,
            used: 0,
            written: 0,
            stop: Err(why),
            endpoint: e,
        },
        Ok(()) => records::records(e, store, n, bytes, out),
    }
}
