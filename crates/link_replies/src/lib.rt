// The replies to our calls: what is refused, with which number, and what is reported otherwise. Nothing here sees a byte or changes anything.
// Each reply makes its tests in the table's order: the first one that holds refuses.
#![tactic(auto, unfolding(link_rows::specs::Replies::refuse, crate::specs::Calls::checked, crate::specs::Calls::ready, crate::specs::Calls::named, crate::specs::Calls::make_reply, crate::specs::Calls::open_reply, crate::specs::Calls::close_reply, crate::specs::Calls::request_reply, crate::specs::Calls::transmit_reply, crate::specs::Calls::read_reply))]

ghost use Rattle.std.specs.Prelude.{◌≡◌, Ok};
ghost use Rattle.link_rows.specs.Replies.{done};
ghost use Rattle.link_replies.specs.Calls.{checked, ready, named, make_reply, open_reply, close_reply, request_reply, transmit_reply, read_reply};

use link_rows::{
    Done, Endpoint, Record, Refusal, Reply, Status, is_served, keeps_rules, refuse, row_of,
};

// 2 and 3.
pub fn checked(e: Endpoint, store_len: usize) -> Result<(), Refusal>
    ensures { result ≡ checked e store_len (Ok tt) }
{
    refuse(Refusal::StoreLength, store_len != Record::STORE_LENGTH)?;
    refuse(Refusal::RowRules, !keeps_rules(e))
}

// 2, 3 and 4.
pub fn ready(e: Endpoint, store_len: usize) -> Result<(), Refusal>
    ensures { result ≡ ready e store_len (Ok tt) }
{
    checked(e, store_len)?;
    refuse(Refusal::LinkDown, e.down)
}

// 5 and 8.
pub fn named(e: Endpoint, id: u16, session: u32) -> Result<(), Refusal>
    ensures { result ≡ named e id session (Ok tt) }
{
    let latest = e.row(row_of(id)).session;
    refuse(Refusal::NotServed, !is_served(id))?;
    refuse(Refusal::WrongSession, (session == 0) | (session != latest))
}

// Nothing but the bytes written is reported.
fn wrote(written: usize) -> Reply
    ensures { result ≡ done 0 0 written }
{
    Ok(Done {
        written,
        ..Done::default()
    })
}

pub fn make_reply(store_len: usize) -> Reply
    ensures { result ≡ make_reply store_len }
{
    refuse(Refusal::StoreLength, store_len != Record::STORE_LENGTH)?;
    wrote(0)
}

pub fn open_reply(e: Endpoint, store_len: usize, id: u16, out_len: usize) -> Reply
    ensures { result ≡ open_reply e store_len id out_len }
{
    let row = e.row(row_of(id));
    ready(e, store_len)?;
    refuse(Refusal::NotServed, !is_served(id))?;
    refuse(Refusal::OtherHalf, !e.opens(id))?;
    refuse(Refusal::NotClosed, row.status != Status::Closed)?;
    refuse(Refusal::SessionsSpent, e.is_spent())?;
    refuse(Refusal::OutputShort, out_len < Record::SHORT_LENGTH)?;
    Ok(Done {
        session: e.next_session(),
        written: Record::SHORT_LENGTH,
        ..Done::default()
    })
}

pub fn close_reply(e: Endpoint, store_len: usize, id: u16, session: u32, out_len: usize) -> Reply
    ensures { result ≡ close_reply e store_len id session out_len }
{
    let row = e.row(row_of(id));
    ready(e, store_len)?;
    named(e, id, session)?;
    refuse(Refusal::NotOpen, row.status != Status::Open)?;
    refuse(Refusal::OutputShort, out_len < Record::SHORT_LENGTH)?;
    wrote(Record::SHORT_LENGTH)
}

pub fn request_reply(
    e: Endpoint,
    store_len: usize,
    id: u16,
    session: u32,
    amount: u32,
    out_len: usize,
) -> Reply
    ensures { result ≡ request_reply e store_len id session amount out_len }
{
    let row = e.row(row_of(id));
    let held = (row.unread as usize) + (row.input as usize) + (amount as usize);
    ready(e, store_len)?;
    named(e, id, session)?;
    refuse(Refusal::NotOpen, row.status != Status::Open)?;
    refuse(Refusal::Empty, amount == 0)?;
    refuse(Refusal::AboveRoom, Record::ROW_LENGTH < held)?;
    refuse(Refusal::OutputShort, out_len < Record::LONG_LENGTH)?;
    wrote(Record::LONG_LENGTH)
}

pub fn transmit_reply(
    e: Endpoint,
    store_len: usize,
    id: u16,
    session: u32,
    data_len: usize,
    out_len: usize,
) -> Reply
    ensures { result ≡ transmit_reply e store_len id session data_len out_len }
{
    let row = e.row(row_of(id));
    ready(e, store_len)?;
    named(e, id, session)?;
    refuse(Refusal::NotOpen, row.status != Status::Open)?;
    refuse(Refusal::Empty, data_len == 0)?;
    refuse(Refusal::AboveOutput, (row.output as usize) < data_len)?;
    // The length is added to only where it is within the output count.
    let size = Record::LONG_LENGTH + data_len;
    refuse(Refusal::OutputShort, out_len < size)?;
    wrote(size)
}

pub fn read_reply(e: Endpoint, store_len: usize, id: u16, session: u32, out_len: usize) -> Reply
    ensures { result ≡ read_reply e store_len id session out_len }
{
    let row = e.row(row_of(id));
    checked(e, store_len)?;
    named(e, id, session)?;
    wrote((row.unread as usize).min(out_len))
}
