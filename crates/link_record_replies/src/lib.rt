// The reply to a received record, in three layers: its head, its row, and what is last. What it sees of the endpoint is small, so that
// no layer takes the endpoint.
#![tactic(auto, unfolding(link_rows::specs::Replies::refuse, crate::specs::Records::head_tests, crate::specs::Records::last_tests))]

ghost use Rattle.std.specs.Prelude.{◌≡◌, Ok};
ghost use Rattle.link_record_replies.specs.Records.{has_count, size_of, is_acked, ack_length, session_for, head_tests, status_tests, count_tests, last_tests, seen_reply};

use link_rows::{Done, Record, Refusal, Reply, Row, Status, is_served, next_after, refuse};

// What a received record sees of the endpoint.
#[derive(Clone, Copy, PartialEq, Eq, Debug)]
pub struct Seen {
    // The row of its identifier.
    pub row: Row,
    // This end opens the identifier.
    pub ours: bool,
    // The last session number given.
    pub last: u32,
}

fn has_count(h: Record) -> bool
    ensures { result ≡ has_count h }
{
    (h.opcode == Record::REQUEST) | (h.opcode == Record::TRANSMIT)
}

// The bytes of the record.
fn size_of(h: Record) -> usize
    ensures { result ≡ size_of h }
{
    match h.opcode {
        Record::TRANSMIT => Record::LONG_LENGTH + (h.count as usize),
        Record::REQUEST => Record::LONG_LENGTH,
        _ => Record::SHORT_LENGTH,
    }
}

// A CLOSEACK is due.
pub fn is_acked(row: Row, h: Record) -> bool
    ensures { result ≡ is_acked row h }
{
    (h.opcode == Record::CLOSE) & (row.status == Status::Open)
}

fn head_tests(h: Record) -> Result<(), Refusal>
    ensures { result ≡ head_tests h (Ok tt) }
{
    let op = h.opcode;
    let counted = has_count(h);
    let known = (op == Record::OPEN) | (op == Record::CLOSE) | (op == Record::CLOSEACK) | counted;
    let not_positive = (h.count == 0) | (Record::MOST_CREDIT < h.count);
    refuse(Refusal::NotWhole, h.available < 1)?;
    refuse(Refusal::UnknownOpcode, !known)?;
    refuse(Refusal::NotWhole, h.available < Record::SHORT_LENGTH)?;
    refuse(Refusal::UnknownIdentifier, !is_served(h.id))?;
    refuse(
        Refusal::NotWhole,
        counted & (h.available < Record::LONG_LENGTH),
    )?;
    refuse(Refusal::CountNotPositive, counted & not_positive)
}

// 23 to 26, by the row's status.
fn status_tests(seen: Seen, h: Record) -> Result<(), Refusal>
    ensures { result ≡ status_tests seen h (Ok tt) }
{
    let op = h.opcode;
    let closed = seen.row.status == Status::Closed;
    let pending = seen.row.status == Status::Pending;
    refuse(Refusal::OpenInOurHalf, (op == Record::OPEN) & seen.ours)?;
    refuse(Refusal::OpenOnRowNotClosed, (op == Record::OPEN) & !closed)?;
    refuse(
        Refusal::OnClosedRow,
        ((op == Record::CLOSE) | has_count(h)) & closed,
    )?;
    refuse(
        Refusal::CloseackNotPending,
        (op == Record::CLOSEACK) & !pending,
    )
}

// 27 to 30, by the counts.
fn count_tests(seen: Seen, h: Record) -> Result<(), Refusal>
    ensures { result ≡ count_tests seen h (Ok tt) }
{
    let row = seen.row;
    let request = h.opcode == Record::REQUEST;
    let transmit = h.opcode == Record::TRANSMIT;
    let open = row.status == Status::Open;
    let credit = (row.output as usize) + (h.count as usize);
    let queued = (row.unread as usize) + (h.count as usize);
    let spent = Record::LAST_SESSION <= seen.last;
    refuse(Refusal::AboveInput, transmit & (row.input < h.count))?;
    refuse(
        Refusal::CreditOverflow,
        request & open & ((Record::MOST_CREDIT as usize) < credit),
    )?;
    refuse(
        Refusal::QueueOverflow,
        transmit & open & (Record::ROW_LENGTH < queued),
    )?;
    refuse(
        Refusal::OpenSessionsSpent,
        (h.opcode == Record::OPEN) & spent,
    )
}

// The bytes of that CLOSEACK.
fn ack_length(row: Row, h: Record) -> usize
    ensures { result ≡ ack_length row h }
{
    if is_acked(row, h) {
        Record::SHORT_LENGTH
    } else {
        0
    }
}

// The session number that an accepted record opens.
fn session_for(last: u32, h: Record) -> u32
    ensures { result ≡ session_for last h }
{
    if h.opcode == Record::OPEN {
        next_after(last)
    } else {
        0
    }
}

fn last_tests(seen: Seen, h: Record, out_len: usize) -> Reply
    ensures { result ≡ last_tests seen h out_len }
{
    let size = Record::LONG_LENGTH + (h.count as usize);
    let acked = is_acked(seen.row, h);
    refuse(
        Refusal::NotWhole,
        (h.opcode == Record::TRANSMIT) & (h.available < size),
    )?;
    refuse(
        Refusal::OutputShort,
        acked & (out_len < Record::SHORT_LENGTH),
    )?;
    Ok(Done {
        session: session_for(seen.last, h),
        used: size_of(h),
        written: ack_length(seen.row, h),
    })
}

// The tests on a record after 2, 3 and 4, by what it sees.
#[tactic(auto, unfolding(crate::specs::Records::seen_reply, crate::specs::Records::row_tests), using(crate::proofs::Onward::head_onward, crate::proofs::Onward::status_onward, crate::proofs::Onward::count_onward))]
pub fn seen_reply(seen: Seen, h: Record, out_len: usize) -> Reply
    ensures { result ≡ seen_reply seen h out_len }
{
    head_tests(h)?;
    status_tests(seen, h)?;
    count_tests(seen, h)?;
    last_tests(seen, h, out_len)
}
