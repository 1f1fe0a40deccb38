// Our calls. The endpoint goes in by value and comes back beside the reply; the store and the output are lent.
// Each call decides first, from the endpoint and lengths alone; a refusal changes nothing.
#![tactic(auto)]

ghost use Rattle.std.specs.Prelude.{[]};
ghost use Rattle.link_changes.specs.Outcome.{Leaves};
ghost use Rattle.link_calls.specs.Calls.{making, opening, closing, requesting, transmitting, reading};

use link_bytes::{clear_row, take_front, write_data, write_long, write_short, zero};
use link_changes::{downed, opened, pending_row};
use link_replies::{
    close_reply, make_reply, open_reply, read_reply, request_reply, transmit_reply,
};
use link_rows::{Answer, Endpoint, Record, row_of};

mod rows;

// A fresh endpoint and its store.
pub fn make(began: bool, store: &mut [u8]) -> Answer
    ensures { Leaves (making began store.old) result store.new [] }
{
    let reply = make_reply(store.len());
    let fresh = Record::fresh_endpoint(began);
    match reply {
        Err(_) => Answer {
            reply,
            endpoint: downed(fresh),
        },
        Ok(_) => {
            zero(store);
            Answer {
                reply,
                endpoint: fresh,
            }
        }
    }
}

// Opens the row of an identifier for the next session: its bytes are zeroed and an OPEN is written.
pub fn open(e: Endpoint, store: &mut [u8], id: u16, out: &mut [u8]) -> Answer
    ensures { Leaves (opening e store.old id out.old) result store.new out.new }
{
    let reply = open_reply(e, store.len(), id, out.len());
    match reply {
        Err(_) => Answer { reply, endpoint: e },
        Ok(_) => {
            let r = row_of(id);
            clear_row(store, r);
            write_short(Record::OPEN, id, out);
            Answer {
                reply,
                endpoint: opened(e, r),
            }
        }
    }
}

// Closes a session: its row is pending, its bytes are zeroed and a CLOSE is written.
pub fn close(e: Endpoint, store: &mut [u8], id: u16, session: u32, out: &mut [u8]) -> Answer
    ensures { Leaves (closing e store.old id session out.old) result store.new out.new }
{
    let reply = close_reply(e, store.len(), id, session, out.len());
    match reply {
        Err(_) => Answer { reply, endpoint: e },
        Ok(_) => {
            let r = row_of(id);
            clear_row(store, r);
            write_short(Record::CLOSE, id, out);
            Answer {
                reply,
                endpoint: e.with_row(r, pending_row(e.row(r))),
            }
        }
    }
}

// Grants the other end more credit.
pub fn request(
    e: Endpoint,
    store: &mut [u8],
    id: u16,
    session: u32,
    amount: u32,
    out: &mut [u8],
) -> Answer
    ensures { Leaves (requesting e store.old id session amount out.old) result store.new out.new }
{
    let reply = request_reply(e, store.len(), id, session, amount, out.len());
    match reply {
        Err(_) => Answer { reply, endpoint: e },
        Ok(_) => {
            let r = row_of(id);
            write_long(Record::REQUEST, id, amount, out);
            Answer {
                reply,
                endpoint: e.with_row(r, rows::granted(e.row(r), amount)),
            }
        }
    }
}

// Sends bytes of a session: its credit to send falls by their number, and a TRANSMIT with them is written.
pub fn transmit(
    e: Endpoint,
    store: &mut [u8],
    id: u16,
    session: u32,
    bytes: &[u8],
    out: &mut [u8],
) -> Answer
    ensures { Leaves (transmitting e store.old id session bytes.now out.old) result store.new out.new }
{
    let reply = transmit_reply(e, store.len(), id, session, bytes.len(), out.len());
    match reply {
        Err(_) => Answer { reply, endpoint: e },
        Ok(_) => {
            let r = row_of(id);
            let row = e.row(r);
            let count = bytes.len() as u32;
            write_data(Record::TRANSMIT, id, count, bytes, out);
            Answer {
                reply,
                endpoint: e.with_row(r, rows::spent(row, count)),
            }
        }
    }
}

// Gives unread bytes of a session, whatever the state of its row and of the link.
pub fn read(e: Endpoint, store: &mut [u8], id: u16, session: u32, out: &mut [u8]) -> Answer
    ensures { Leaves (reading e store.old id session out.old) result store.new out.new }
{
    let reply = read_reply(e, store.len(), id, session, out.len());
    match reply {
        Err(_) => Answer { reply, endpoint: e },
        Ok(done) => {
            let r = row_of(id);
            let row = e.row(r);
            take_front(store, r, row.unread as usize, done.written, out);
            Answer {
                reply,
                endpoint: e.with_row(r, rows::less(row, done.written)),
            }
        }
    }
}
